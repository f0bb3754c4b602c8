//! Serves one request: reads it from any reader, piece by piece, handles it, and writes its reply
//! to any writer.

ghost use Rattle.std.specs.Prelude.{◌≡◌, ◌≤◌, ◌+◌, IfSome, OnErr};
ghost use Rattle.lab_wire_heads.specs.Interims.{interim_text};
ghost use Rattle.lab_wire_heads.specs.Receiving.{most_asks};
ghost use Rattle.lab_desk.specs.Serving.{OnUnhandled, Serves, WritesReply};
ghost use Rattle.lab_desk.specs.Private.Serving.{GreetsBy};

use crate::desk::Desk;
use lab_desk_foundings::ServeFault;
use lab_forms_streams::{ByteSource, write_whole};
use lab_forms_texts::Tick;
use lab_records_keeper::Keeper;
use lab_wire::RequestRefusal;
use lab_wire_heads::{HeadFault, read_request};
use std::io::Write;

impl<S: Keeper + Drop> Desk<S> {
    /// Serves one request: reads it, handles it, and writes its reply, which [`Desk::reply`]
    /// returns afterwards. If the client waits for the interim answer, it is written before the
    /// body is read. What follows the request is not read. If the request is refused while it is
    /// read, the reply is the refusal.
    ///
    /// # Errors
    /// - `Read`: the reader failed, or was asked 80,000 times. No reply was written;
    /// - `Interim`: the writer failed within the interim answer. Nothing was changed;
    /// - `Reply`: the writer failed within the reply. The request was handled all the same.
    pub fn serve_one<R: ByteSource, W: Write>(
        &mut self,
        reader: &mut R,
        writer: &mut W,
        tick: &Tick,
    ) -> Result<(), ServeFault>
        ensures serves { Serves S.Keeper self.old.keeper self.new.keeper (record {
          known = R.remaining reader.old;
          tick = tick.now;
          reply = self.new.reply;
        }) result }
        ensures written { IfSome (R.remaining reader.old) (λ bytes.
            WritesReply (interim_text bytes) self.new.reply result
            (W.contents writer.old) (W.contents writer.new)) }
        ensures untouched { OnUnhandled result (self.new ≡ self.old) }
        ensures asks { R.asks reader.new ≤ R.asks reader.old + most_asks }
    {
        self.receive(reader, writer, tick)?;
        match write_whole(writer, self.reply()) {
            Ok(()) => Ok(()),
            Err(fault) => Err(ServeFault::Reply { sent: fault.sent }),
        }
    }

    // Reads a request and handles it. Its reply is kept, but not yet written.
    fn receive<R: ByteSource, W: Write>(
        &mut self,
        reader: &mut R,
        writer: &mut W,
        tick: &Tick,
    ) -> Result<(), ServeFault>
        ensures serves { Serves S.Keeper self.old.keeper self.new.keeper (record {
          known = R.remaining reader.old;
          tick = tick.now;
          reply = self.new.reply;
        }) result }
        ensures interim { IfSome (R.remaining reader.old) (λ bytes.
            GreetsBy (interim_text bytes) result (W.contents writer.old) (W.contents writer.new)) }
        ensures untouched { OnErr result (self.new ≡ self.old) }
        ensures asks { R.asks reader.new ≤ R.asks reader.old + most_asks }
    {
        match read_request(self.alloc(), reader, writer) {
            Ok(request) => {
                self.handle_received(tick, &request);
                drop(request);
                Ok(())
            }
            Err(HeadFault::Refused(refusal)) => {
                self.refuse(tick, RequestRefusal::Head(refusal));
                Ok(())
            }
            Err(HeadFault::Memory) => {
                self.exhaust();
                Ok(())
            }
            Err(HeadFault::Read) => Err(ServeFault::Read),
            Err(HeadFault::Write { sent }) => Err(ServeFault::Interim { sent }),
        }
    }
}
