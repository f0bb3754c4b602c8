//! What a server is given in memory: a clock that stands, words that are known, and who opens no
//! keeper anew.
use crate::streets::Ground;
use lab_forms_texts::Moment;
use lab_program_host::{Chance, Clock, DrawFault, Outside, Writers};
use lab_program_serve::Opener;
use lab_records_keeper::KeeperFault;
use lab_records_memory::Lists;
use lab_tests_rows::words;
use std::alloc::Global;
use std::marker::PhantomData;

/// A memory, in which a street lies. The type alone is used.
pub(crate) struct InMemory<'a> {
    of: PhantomData<&'a ()>,
}

impl<'a> Outside for InMemory<'a> {
    type Net = Ground<'a>;

    type Volume = ();

    type Clock = Standing;

    type Chance = Counting;

    type Progress = ();
}

/// Streams whose bytes are kept in memory. The type alone is used.
pub(crate) struct Buffers;

impl Writers for Buffers {
    type Output = Vec<u8>;

    type Errors = Vec<u8>;
}

/// A clock that stands.
#[derive(Drop)]
pub(crate) struct Standing {
    pub(crate) moment: Moment,
}

/// Words, of which each eight begin with one that is eight more than that before.
#[derive(Drop)]
pub(crate) struct Counting {
    pub(crate) next: u32,
}

/// Who opens no keeper anew. Nothing is supposed of one, and one that is closed is dropped.
#[derive(Drop)]
pub(crate) struct Never;

impl Clock for Standing {
    fn moment(&mut self) -> Result<Moment, DrawFault> {
        Ok(self.moment)
    }
}

impl Chance for Counting {
    fn words(&mut self) -> Result<[u64; 8], DrawFault> {
        let words = words(self.next);
        self.next = self.next.saturating_add(8);
        Ok(words)
    }
}

impl<H> Opener<H, Lists> for Never {
    type Finished = Lists;

    ghost opened = { λ _. Unit {0} };

    ghost unopened = { λ _. Unit {0} };

    ghost closed = { λ _. Unit {0} };

    ghost keeper_of = { λ keeper. keeper };

    fn is_there(&mut self, _host: &mut H) -> bool {
        true
    }

    fn open(&mut self, _alloc: Global, _host: &mut H) -> Result<Lists, KeeperFault> {
        Err(KeeperFault::Memory)
    }

    fn finish(&self, keeper: Lists) -> Lists {
        keeper
    }

    fn close(&mut self, _host: &mut H, finished: Lists) {
        drop(finished);
    }
}
