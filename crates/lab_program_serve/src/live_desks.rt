//! A desk over a keeper that is opened anew once it doesn't answer.

ghost use Rattle.std.specs.Prelude.{◌≡◌, true, false, ℕ, List, [], Some, None, option_map, IfErr, IfOk, IfSome};
ghost use Rattle.lab_program_serve.specs.Times.{IsAsked, IsMended, IsNext, IsUnmended};
ghost use Rattle.lab_program_serve.specs.Private.Times.{IsAskedIfAny};
ghost use Rattle.lab_program_serve.specs.Visits.{GoesOn};

use crate::openings::Opener;
use crate::serving::serve_connection;
use crate::shut::Shut;
use lab_desk::{Desk, Keeper, Unmade};
use lab_forms_texts::{LabCode, OutOfMemory, Tick};
use lab_program_host::ConnectionFault;
use lab_records_keeper::{BadStore, KeeperFault};
use std::alloc::Global;
use std::io::{Read, Write};
use std::marker::Model;

/// The code of the laboratory of which a keeper is asked whether it answers. There need be none.
const ASKED: &str = "is-it-there";

/// How a reply begins that refuses a request for the store's sake, or for want of memory (RFC 9110,
/// 15.6.4, '503 Service Unavailable').
const UNAVAILABLE: &[u8] = b"HTTP/1.1 503 ";

/// A desk over a keeper that was opened, who opens it anew, and a desk for the requests that come
/// while none could be opened. A contract sees the first desk.
pub struct LiveDesk<S, O> {
    opener: O,
    lab: LabCode,
    desk: Option<Desk<S>>,
    shut: Desk<Shut>,
}

// `drop` is written out, so that a caller doesn't prove again how each part is dropped.
impl<S: Drop, O: Drop> Drop for LiveDesk<S, O> {
    fn drop(self) {
        let LiveDesk {
            opener: _,
            lab: _,
            desk: _,
            shut: _,
        } = self;
    }
}

impl<S, O> Model for LiveDesk<S, O> {
    ghost use Rattle.std.specs.Prelude.{Option};
    ghost use Rattle.lab_desk.specs.Desk.{Served};

    ghost Value = { Option (Served S) };

    ghost view = { λ live_desk. live_desk.desk };
}

impl<S: Keeper + Drop, O: Drop> LiveDesk<S, O> {
    /// A live desk with a desk over a keeper that was opened.
    ///
    /// # Errors
    /// Memory ran out. The keeper is handed back.
    pub fn new(alloc: Global, opener: O, desk: Desk<S>) -> Result<LiveDesk<S, O>, Unmade<S>>
        ensures desk { IfOk result (λ live_desk. live_desk ≡ Some desk) }
        ensures unmade { IfErr result (λ unmade. unmade.keeper ≡ desk.keeper) }
    {
        let Ok((lab, shut)) = spare_desk(alloc) else {
            let keeper = desk.into_keeper();
            return Err(Unmade { keeper });
        };
        Ok(LiveDesk {
            opener,
            lab,
            desk: Some(desk),
            shut,
        })
    }

    // Whether there is a desk whose keeper answers, and lies where it was opened.
    fn is_open<H>(&mut self, host: &mut H) -> bool
    where
        O: Opener<H, S>,
        ensures mended { result ≡ true →
            IsMended S.Keeper O.opened O.closed O.unopened self.old self.new }
        ensures asked { IsAskedIfAny S.Keeper self.old self.new }
    {
        let is_there = self.opener.is_there(host);
        match self.desk.take() {
            Some(mut desk) => {
                let answers = is_live(&mut desk, &self.lab);
                self.desk = Some(desk);
                is_there & answers
            }
            None => false,
        }
    }

    // Closes a keeper after its last call.
    fn close<H>(&mut self, host: &mut H, keeper: S)
    where
        O: Opener<H, S>,
        ensures closed { O.closed keeper }
        ensures same { self.new ≡ self.old }
    {
        let finished = self.opener.finish(keeper);
        self.opener.close(host, finished);
    }

    // A desk over a keeper that is opened anew. If there is no memory for the desk, the keeper is
    // closed.
    fn desk_opened<H>(&mut self, alloc: Global, host: &mut H) -> Result<Desk<S>, KeeperFault>
    where
        O: Opener<H, S>,
        ensures opened { IfOk result (λ desk. O.opened desk.keeper × (desk.reply ≡ [])) }
        ensures unopened { IfErr result (λ _. IsUnmended O.opened O.closed O.unopened) }
        ensures same { self.new ≡ self.old }
    {
        let keeper = self.opener.open(alloc, host)?;
        match Desk::new(alloc, keeper) {
            Ok(desk) => Ok(desk),
            Err(unmade) => {
                self.close(host, unmade.keeper);
                Err(KeeperFault::Memory)
            }
        }
    }

    // Gives up the keeper, if there is one: after its last call it is closed.
    fn give_up<H>(&mut self, host: &mut H)
    where
        O: Opener<H, S>,
        ensures none { self.new ≡ None }
        ensures closed { IfSome self.old (λ desk. O.closed desk.keeper) }
    {
        if let Some(desk) = self.desk.take() {
            self.close(host, desk.into_keeper());
        }
    }

    // Before a request: a keeper that doesn't answer is given up, and opened anew.
    fn mend<H>(&mut self, alloc: Global, host: &mut H)
    where
        O: Opener<H, S>,
        ensures { IsMended S.Keeper O.opened O.closed O.unopened self.old self.new }
    {
        if self.is_open(host) {
            return;
        }
        self.give_up(host);
        match self.desk_opened(alloc, host) {
            Ok(desk) => self.desk = Some(desk),
            Err(fault) => self.shut.set_keeper(Shut { fault }),
        }
    }

    /// Serves one connection. Before its request a keeper that doesn't answer, since a fault has
    /// shut it or it had no memory after a reply 503, or that no longer lies where it was opened,
    /// is opened anew; where that can't be, the request is refused as by a keeper whose store
    /// refused, or for which there was no memory.
    ///
    /// # Errors
    /// Those of serving a request, and that there was no memory for the buffer: nothing is changed.
    pub fn visit<H, R: Read + Drop, W: Write>(
        &mut self,
        alloc: Global,
        host: &mut H,
        reader: R,
        writer: &mut W,
        tick: &Tick,
    ) -> Result<(), ConnectionFault>
    where
        O: Opener<H, S>,
        ensures { (reply : List ℕ) × IsNext S.Keeper O.opened O.closed O.unopened self.old (record {
          exchange = record { known = R.remaining reader; tick = tick.now; reply = reply };
          ending = result;
          before = W.contents writer.old;
          after = W.contents writer.new;
        }) self.new }
    {
        self.mend(alloc, host);
        match self.desk.take() {
            Some(mut desk) => {
                let ending = serve_connection(alloc, &mut desk, reader, writer, tick);
                self.desk = Some(desk);
                ending
            }
            None => serve_connection(alloc, &mut self.shut, reader, writer, tick),
        }
    }

    /// Gives the keeper back, if there is one.
    pub fn into_keeper(self) -> Option<S>
        ensures { result ≡ option_map (λ desk. desk.keeper) self }
    {
        let LiveDesk {
            opener: _,
            lab: _,
            desk,
            shut: _,
        } = self;
        Some(desk?.into_keeper())
    }
}

// The code of which a keeper is asked whether it answers, and the desk for the requests that come
// while no keeper is open.
fn spare_desk(alloc: Global) -> Result<(LabCode, Desk<Shut>), OutOfMemory> {
    let Ok(lab) = LabCode::parse(alloc, ASKED) else {
        return Err(OutOfMemory);
    };
    let fault = KeeperFault::Refused(BadStore);
    match Desk::new(alloc, Shut { fault }) {
        Ok(shut) => Ok((lab, shut)),
        Err(_) => Err(OutOfMemory),
    }
}

// Whether the keeper of a desk is live. It is asked only behind a reply that may be the store's,
// since nothing but a fault of the store shuts a keeper. One that had no memory to answer doesn't
// count as live, so that each request finds a keeper that is.
fn is_live<S: Keeper + Drop>(desk: &mut Desk<S>, lab: &LabCode) -> bool
    ensures on { result ≡ true →
        GoesOn S.Keeper desk.old.reply desk.old.keeper desk.new.keeper }
    ensures asked { IsAsked S.Keeper desk.old.keeper desk.new.keeper }
{
    if !desk.reply().starts_with(UNAVAILABLE) {
        return true;
    }
    match desk.answers(lab) {
        Ok(()) => true,
        Err(_) => false,
    }
}
