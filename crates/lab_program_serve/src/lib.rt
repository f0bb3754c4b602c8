//! Serving requests over loopback sockets, one connection after the other, and the rehearsal of one
//! request. What is said of sockets stands in `loopback` and `rehearsal_loopback`; all else is said
//! of any connections.
#![tactic(auto)]

mod connections;
mod live_desks;
mod loopback;
mod openings;
mod rehearsal_loopback;
mod rehearsals;
mod runs;
mod serving;
mod shut;

pub use connections::{Client, Connections};
pub use lab_desk::{Desk, Keeper, Unmade};
pub use lab_forms_streams::WriteFault;
pub use lab_forms_texts::{LabCode, Moment};
pub use lab_program_host::{
    Chance, Clock, ConnectionFault, FoundFault, ListenFault, RehearsalFault, ServerFault,
};
pub use live_desks::LiveDesk;
pub use loopback::{Listening, Rest, connect, listen, serve};
pub use openings::Opener;
pub use rehearsal_loopback::rehearse;
pub use rehearsals::{rehearse_over, request_bytes};
pub use runs::what_is_served_is_a_run;
pub use serving::{serve_connection, serve_over};
pub use shut::Shut;
