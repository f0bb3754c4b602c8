//! What happens to an installation, and what is true of all of it: each laboratory's answers are
//! those of its run alone, what is released is signed by two persons or three, and what was
//! recorded is kept at each event and retained over all (ISO/IEC 17025:2017, 8.4.2; 21 CFR
//! 11.10(c), (e)). Beside these laws: how one request is answered over any keeper.
#![tactic(auto)]

mod answers;
mod events;
mod requests;
mod starts;

pub use answers::{answer_on, no_such_lab};
pub use events::Event;
pub use requests::answer_asked;
pub use starts::a_stop_and_a_start_go_on;
