//! The wire of Koghdise: what the bytes of an HTTP/1.1 request ask of which laboratory, and the
//! bytes of each answer (RFC 9110 and RFC 9112). This crate re-exports what the layers above name
//! from the crates below.
#![tactic(auto)]

mod aims;
mod asked;
mod commands;
mod numbers;
mod paths;
mod queries;
mod refusals;
mod replies;
mod route_refusals;
mod routes;
mod statuses;

pub use aims::{Admitted, Aim};
pub use asked::{ask, ask_received};
pub use commands::{Asked, command_of};
pub use lab_forms_streams::{WriteFault, write_whole};
pub use lab_forms_texts::{Fault, LabCode, Moment, Name, OutOfMemory, RefusalKind, Tick};
pub use lab_records_machine::{Command, Founder, Founding, Instruction, Reply};
pub use lab_records_rules::Refusal;
pub use lab_seal_hashes::Token;
pub use lab_wire_heads::{
    HeadFault, HeadRefusal, Received, RequestParts, grammar_of_heads, read_request, request_parts,
};
pub use lab_wire_members::{BodyFault, BodyRefusal};
pub use refusals::{RequestFault, RequestRefusal};
pub use replies::{Answer, memory_reply, reply_bytes};
pub use route_refusals::{Allowed, RouteFault, RouteRefusal};
pub use routes::{Destination, Routes};
