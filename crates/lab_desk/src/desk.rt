//! The desk: one body for every keeper.

ghost use Rattle.std.specs.Prelude.{◌≡◌, ◌≤◌, ℕ, List, length, vec_capacity, [], true, false, Ok, IfOk, IfErr, option_map};
ghost use Rattle.lab_records_keeper.specs.Worlds.{Passes, Given, CommitsAs};
ghost use Rattle.lab_wire.specs.declared.replies.Answer.TheVariants.{Refused as RefusedAnswer};
ghost use Rattle.lab_wire.specs.Asked.{asked, RequestFaultFits};
ghost use Rattle.lab_wire.specs.Replies.{reply_text, memory_text};
ghost use Rattle.lab_desk_events.specs.Private.Requests.{TellsFault};
ghost use Rattle.lab_desk_events.specs.Keeping.{Stays};
ghost use Rattle.lab_desk_events.specs.Private.Leaving.{Settles};
ghost use Rattle.lab_desk_foundings.specs.Foundings.{founding_in, Births, shown};
ghost use Rattle.lab_desk_foundings.specs.Private.Foundings.{TakesFounding, RefusesFounding};
ghost use Rattle.lab_desk.specs.Answering.{AnswersRequest};
ghost use Rattle.lab_desk.specs.Founding.{AnswersFounding};
ghost use Rattle.lab_desk.specs.Handling.{Handles};

use lab_desk_events::{Event, answer_asked};
use lab_desk_foundings::{FoundFault, FoundingLine, founded_line, line_of_fault, newborn_of};
use lab_forms_texts::{LabCode, OutOfMemory, Tick};
use lab_records_copy_out::newborn_is_legible;
use lab_records_keeper::{Keeper, KeeperFault};
use lab_records_kept::Need;
use lab_wire::{
    Answer, Asked, Received, RequestFault, RequestRefusal, Routes, ask, ask_received, memory_reply,
    reply_bytes,
};
use std::alloc::Global;
use std::marker::Model;

/// A desk over a keeper: it answers requests, and founds laboratories.
pub struct Desk<S> {
    alloc: Global,
    routes: Routes,
    keeper: S,
    memory: Vec<u8>,
    last: Option<Vec<u8>>,
}

// `drop` is written out, so that a caller doesn't prove again how each part is dropped.
impl<S: Drop> Drop for Desk<S> {
    fn drop(self) {
        let Desk {
            alloc: _,
            routes: _,
            keeper: _,
            memory: _,
            last: _,
        } = self;
    }
}

/// The keeper over which no desk was made because memory ran out. It is handed back.
#[derive(Drop)]
pub struct Unmade<S> {
    /// The keeper.
    pub keeper: S,
}

impl<S> Model for Desk<S> {
    ghost use Rattle.std.specs.Prelude.{◌≡◌, option_map, unwrap_or};
    ghost use Rattle.lab_wire.specs.Replies.{memory_text};
    ghost use Rattle.lab_desk.specs.Desk.{Served};

    ghost Value = { Served S };

    ghost view = { λ desk. record {
      keeper = desk.keeper;
      reply = unwrap_or (option_map (λ reply. reply.items) desk.last) desk.memory.items;
    } };

    ghost invariant = { λ desk. desk.memory.items ≡ memory_text };
}

impl<S: Keeper + Drop> Desk<S> {
    /// Makes a desk over a keeper. Prepares the routes, and the reply that is sent if memory runs
    /// out.
    ///
    /// # Errors
    /// Memory ran out. The keeper is handed back.
    pub fn new(alloc: Global, keeper: S) -> Result<Desk<S>, Unmade<S>>
        ensures keeper { IfOk result (λ desk. desk.keeper ≡ keeper) }
        ensures reply { IfOk result (λ desk. desk.reply ≡ []) }
        ensures unmade { IfErr result (λ unmade. unmade.keeper ≡ keeper) }
    {
        let Ok(memory) = memory_reply(alloc) else {
            return Err(Unmade { keeper });
        };
        let Ok(routes) = Routes::new(alloc) else {
            return Err(Unmade { keeper });
        };
        Ok(Desk {
            alloc,
            routes,
            keeper,
            memory,
            last: Some(Vec::new(alloc)),
        })
    }

    /// Handles a request. Afterwards `reply` returns its reply, and the keeper holds its laboratory
    /// as the request left it. Returns whether the request was taken: it was, unless memory ran out
    /// or the store refused. If it was not taken, the reply says why, and the rows are as before.
    /// If a fault of the store shut the keeper during the commit, the rows are as before the commit
    /// or as after it once the keeper is opened again (`crash`), so a client should read before it
    /// asks again. Every laboratory keeps what it has recorded.
    ///
    /// Each fact has a name, as a field of `Handles` (`specs/Handling.antt`): `taken` and `rows`
    /// are about a request that was taken; `refused` and `rows_refused` about one that was not, and
    /// `cause` about why the store refused it; `untouched` and `nobodys` about bytes that ask
    /// nothing; `crash`, `quiet` and `durable` about what a crash may leave; `stays` and `passes`
    /// about what stays true (`stays` has `within`, `releasing`, `legible`, `keeps`, `reached`,
    /// `safe`, `left_within`, `left_releasing` and `again`: after a refusal too, a live keeper is
    /// live, or its store failed in this call); and `sound`: a copy that was sent as the reply is
    /// sound.
    pub fn handle(&mut self, tick: &Tick, bytes: &[u8]) -> bool
        ensures { Handles S.Keeper self.old.keeper self.new.keeper (record {
          tick = tick.now;
          asks = asked bytes.now;
          is_taken = result;
          reply = self.new.reply;
        }) }
    {
        match ask(self.alloc, &self.routes, bytes) {
            Ok(asked) => self.handle_asked(tick, asked),
            Err(fault) => self.answer_fault(tick, fault),
        }
    }

    /// Handles a received request, as `handle` handles its bytes.
    pub(crate) fn handle_received(&mut self, tick: &Tick, request: &Received) -> bool
        ensures { Handles S.Keeper self.old.keeper self.new.keeper (record {
          tick = tick.now;
          asks = asked request.now;
          is_taken = result;
          reply = self.new.reply;
        }) }
    {
        match ask_received(self.alloc, &self.routes, request) {
            Ok(asked) => self.handle_asked(tick, asked),
            Err(fault) => self.answer_fault(tick, fault),
        }
    }

    // Handles what some bytes ask.
    fn handle_asked(&mut self, tick: &Tick, question: Asked) -> bool
        ensures { (bytes : List ℕ) → asked bytes ≡ Ok question →
            Handles S.Keeper self.old.keeper self.new.keeper (record {
              tick = tick.now;
              asks = asked bytes;
              is_taken = result;
              reply = self.new.reply;
            }) }
    {
        let answered = answer_asked(self.alloc, &mut self.keeper, tick, question);
        self.keep(tick, answered)
    }

    // Keeps the reply to bytes that were refused, or that could not be read because memory ran out.
    fn answer_fault(&mut self, tick: &Tick, fault: RequestFault) -> bool
        ensures { (bytes : List ℕ) → RequestFaultFits bytes fault →
            Handles S.Keeper self.old.keeper self.new.keeper (record {
              tick = tick.now;
              asks = asked bytes;
              is_taken = result;
              reply = self.new.reply;
            }) }
    {
        match fault {
            RequestFault::Refused(refusal) => self.refuse(tick, refusal),
            RequestFault::Memory => self.exhaust(),
        }
    }

    /// Keeps the reply to bytes that ask nothing. Returns whether memory sufficed for it.
    pub(crate) fn refuse(&mut self, tick: &Tick, refusal: RequestRefusal) -> bool
        ensures replied { result ≡ true →
            self.new.reply ≡ reply_text tick.now (RefusedAnswer refusal) }
        ensures memory { result ≡ false → self.new.reply ≡ memory_text }
        ensures keeper { self.new.keeper ≡ self.old.keeper }
    {
        self.last = reply_bytes(self.alloc, tick, &Answer::Refused(refusal)).ok();
        self.last.is_some()
    }

    /// Keeps the reply that reports that memory ran out. Returns `false`: no request was taken.
    pub(crate) fn exhaust(&mut self) -> bool
        ensures refused { result ≡ false }
        ensures reply { self.new.reply ≡ memory_text }
        ensures keeper { self.new.keeper ≡ self.old.keeper }
    {
        self.last = None;
        false
    }

    // Keeps the reply of the laboratory, or the reply that reports the keeper's fault. Returns
    // whether the laboratory replied.
    fn keep(&mut self, tick: &Tick, answered: Result<Vec<u8>, KeeperFault>) -> bool
        ensures replied { IfOk answered (λ reply.
            (result ≡ true) × (self.new.reply ≡ reply.items)) }
        ensures fault { IfErr answered (λ fault.
            (result ≡ false) × TellsFault tick.now self.new.reply fault) }
        ensures keeper { self.new.keeper ≡ self.old.keeper }
    {
        match answered {
            Ok(reply) => {
                self.last = Some(reply);
                true
            }
            Err(KeeperFault::Refused(_)) => {
                self.last = reply_bytes(self.alloc, tick, &Answer::Storage).ok();
                false
            }
            Err(KeeperFault::Memory) => self.exhaust(),
        }
    }

    /// Returns the reply to the last request that was handled, or no bytes before the first
    /// request.
    pub fn reply(&self) -> &[u8]
        ensures { result.now ≡ self.now.reply }
    {
        match &self.last {
            Some(reply) => reply.as_slice(),
            None => self.memory.as_slice(),
        }
    }

    /// Founds a laboratory from its body. Every other laboratory keeps what it has recorded. Each
    /// fact has a name, as a field of `AnswersFounding` (`specs/Founding.antt`).
    ///
    /// # Errors
    /// The body was refused, no laboratory can be made from it, a laboratory with the code exists,
    /// the store refused, or memory ran out. After each error every laboratory is unchanged.
    pub fn found(&mut self, lab: &LabCode, tick: &Tick, body: &[u8]) -> Result<(), FoundFault>
        ensures founds { AnswersFounding S.Keeper self.old.keeper self.new.keeper lab.now tick.now
            (founding_in body.now) result }
        ensures reply { self.new.reply ≡ self.old.reply }
    {
        let newborn = newborn_of(self.alloc, lab, tick, body)?;
        newborn_is_legible(&newborn);
        self.keeper.found(newborn)?;
        Ok(())
    }

    /// Founds a laboratory, and returns the line that reports it. The line is built before anything
    /// is changed.
    pub(crate) fn answer_founding(
        &mut self,
        lab: &LabCode,
        tick: &Tick,
        body: &[u8],
    ) -> FoundingLine
        ensures taken { Given (S.world self.old.keeper) (S.world self.new.keeper)
            (result.taken ≡ true →
            TakesFounding (S.world self.old.keeper) (S.world self.new.keeper) lab.now tick.now
            (founding_in body.now) (shown (option_map (λ line. line.items) result.text))) }
        ensures refused { Given (S.world self.old.keeper) (S.world self.new.keeper)
            (result.taken ≡ false →
            RefusesFounding (S.world self.old.keeper) (S.world self.new.keeper) lab.now tick.now
            (founding_in body.now) (shown (option_map (λ line. line.items) result.text))) }
        ensures crash { Given (S.world self.old.keeper) (S.world self.new.keeper)
            (CommitsAs (Births lab.now tick.now (founding_in body.now))
            (S.world self.old.keeper) (S.world self.new.keeper)) }
        ensures settles { Given (S.world self.old.keeper) (S.world self.new.keeper)
            (result.taken ≡ true →
            Settles (S.world self.old.keeper) (S.world self.new.keeper)) }
        ensures lives { Given (S.world self.old.keeper) (S.world self.new.keeper)
            (result.taken ≡ true → (S.world self.old.keeper).is_live →
            (S.world self.new.keeper).is_live) }
        ensures stays { Given (S.world self.old.keeper) (S.world self.new.keeper)
            (Stays (S.world self.old.keeper) (S.world self.new.keeper)) }
        ensures passes { Passes (S.world self.old.keeper) (S.world self.new.keeper) }
    {
        let Ok(line) = founded_line(self.alloc, lab) else {
            return FoundingLine::of_memory();
        };
        match self.found(lab, tick, body) {
            Ok(()) => FoundingLine {
                taken: true,
                text: Some(line),
            },
            Err(fault) => line_of_fault(self.alloc, &fault),
        }
    }

    /// Returns the allocator of the desk.
    pub(crate) fn alloc(&self) -> Global {
        self.alloc
    }

    /// Returns an empty list that has room for one word for each event.
    ///
    /// # Errors
    /// Memory ran out.
    pub(crate) fn room_for(&self, events: &[Event]) -> Result<Vec<bool>, OutOfMemory>
        ensures empty { IfOk result (λ taken. taken.items ≡ []) }
        ensures room { IfOk result (λ taken. length events.now ≤ vec_capacity taken) }
    {
        Ok(Vec::with_capacity(self.alloc, events.len())?)
    }

    /// Asks the keeper for the head of a laboratory, which need not exist. A keeper that answers is
    /// live. Nothing is changed.
    ///
    /// # Errors
    /// The keeper failed.
    pub fn answers(&mut self, lab: &LabCode) -> Result<(), KeeperFault>
        ensures asked { AnswersRequest S.Keeper self.old.keeper self.new.keeper result }
        ensures reply { self.new.reply ≡ self.old.reply }
    {
        let need = Need {
            token: None,
            person: None,
            form: None,
            filed: None,
            list: None,
        };
        match self.keeper.load(lab, &need) {
            Ok(_) => Ok(()),
            Err(fault) => Err(fault),
        }
    }

    /// Replaces the keeper by another one.
    pub fn set_keeper(&mut self, keeper: S)
        ensures keeper { self.new.keeper ≡ keeper }
        ensures reply { self.new.reply ≡ self.old.reply }
    {
        self.keeper = keeper;
    }

    /// Returns the keeper, and ends the desk.
    pub fn into_keeper(self) -> S
        ensures { result ≡ self.keeper }
    {
        let Desk {
            alloc: _,
            routes: _,
            keeper,
            memory: _,
            last: _,
        } = self;
        keeper
    }
}
