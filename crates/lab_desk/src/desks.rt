//! One request, handled by two desks.

ghost use Rattle.std.specs.Prelude.{◌≡◌, Err};
ghost use Rattle.lab_wire.specs.declared.refusals.RequestRefusal.{RequestRefusal};
ghost use Rattle.lab_wire.specs.Asked.{asked};
ghost use Rattle.lab_desk.specs.Handling.{Handles};
ghost use Rattle.lab_desk.specs.Twins.{AreTaken, AgreeOnAsked, StayAgreed, StayAgreedElsewhere, SameButForMemory, GivenBoth, both};

use crate::{Desk, Keeper, Tick};

/// Whether each of two desks took a request.
#[derive(Clone, Copy, Debug, PartialEq, Eq)]
pub struct Twins {
    /// Whether the first desk took it.
    pub one: bool,
    /// Whether the other desk took it.
    pub other: bool,
}

/// Handles a request at two desks, one after the other, over keepers of any two types. Each desk is
/// left as `Desk::handle` leaves it. If both took the request and agreed on the laboratory that it
/// names, they give the same reply and still agree on this laboratory, whatever else they hold.
/// They still agree on every other laboratory on which they agreed, whether the request was taken
/// or not.
pub fn twin<S: Keeper + Drop, T: Keeper + Drop>(
    desk: &mut Desk<S>,
    other: &mut Desk<T>,
    tick: &Tick,
    bytes: &[u8],
) -> Twins
    // Each desk by itself:
    ensures one { Handles S.Keeper desk.old.keeper desk.new.keeper (record {
      tick = tick.now;
      asks = asked bytes.now;
      is_taken = result.one;
      reply = desk.new.reply;
    }) }
    ensures other { Handles T.Keeper other.old.keeper other.new.keeper (record {
      tick = tick.now;
      asks = asked bytes.now;
      is_taken = result.other;
      reply = other.new.reply;
    }) }

    // Both desks:
    ensures replies { let old = both (S.world desk.old.keeper) (T.world other.old.keeper) in
        let new = both (S.world desk.new.keeper) (T.world other.new.keeper) in
        GivenBoth old new (AreTaken result → AgreeOnAsked old (asked bytes.now) →
        desk.new.reply ≡ other.new.reply) }
    ensures agree { let old = both (S.world desk.old.keeper) (T.world other.old.keeper) in
        let new = both (S.world desk.new.keeper) (T.world other.new.keeper) in
        GivenBoth old new (result.one ≡ result.other → StayAgreed old new) }
    ensures elsewhere { let old = both (S.world desk.old.keeper) (T.world other.old.keeper) in
        let new = both (S.world desk.new.keeper) (T.world other.new.keeper) in
        GivenBoth old new (StayAgreedElsewhere (asked bytes.now) old new) }
    ensures nobodys { (refusal : RequestRefusal) → asked bytes.now ≡ Err refusal →
        SameButForMemory desk.new.reply other.new.reply }
{
    Twins {
        one: desk.handle(tick, bytes),
        other: other.handle(tick, bytes),
    }
}
