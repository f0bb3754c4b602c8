//! How a command ends: what is decided on a part of a laboratory, the rows that are added to the
//! trail, what a failed password changes, and the replies (21 CFR 11.10(e) and 11.300(d)). And the
//! laws of the small machine, over its definitions only: every founding leaves a laboratory within
//! its limits, bound and under dual control; every step keeps it so, and keeps what was; a copy in a
//! reply is sound; and what is decided on a part is the step of the whole laboratory (21 CFR
//! 11.10(b) and (e), 11.70; ISO/IEC 17025:2017, 7.5 and 8.4). A law's function does nothing: its
//! contract states the law, for all laboratories.
#![tactic(auto)]

mod births;
mod bound;
mod dual;
mod endings;
mod inspections;
mod keeping;
mod laws;
mod limits;
mod outcome;
mod runs;
mod subjects;
mod telling;
mod telling_laws;
mod trail_rows;

pub use births::{a_birth_is_right, a_laboratory_is_born_once};
pub use bound::a_step_keeps_bound;
pub use dual::a_step_keeps_dual;
pub use endings::{end, failed_opening, made_opening, noted_end};
pub use inspections::a_copy_handed_out_is_sound;
pub use keeping::a_step_keeps_what_was;
pub use laws::what_is_decided;
pub use limits::{a_form_is_asked_rightly, a_step_keeps_limits};
pub use outcome::Outcome;
pub use runs::a_run_is_right;
pub use telling::{deed_changes, failure_outcome, refusal_outcome};
pub use telling_laws::a_step_is_told;
pub use trail_rows::next_number;
