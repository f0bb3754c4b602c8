//! The messages of HTTP/1.1 (RFC 9110 and RFC 9112). Of a request: the head and its limits, the
//! fields that are read, the token and the body; it is read from a reader piece by piece, with the
//! interim answer to a client that waits before it sends its body. Of a reply: the date, the lines
//! of its head, and how its bytes are sent.
#![tactic(auto)]

mod accepted;
mod asks;
mod bodies;
mod dates;
mod expected;
mod fields;
mod head_bytes;
mod head_grammar;
mod heads;
mod interim_lines;
mod interims;
mod lengths;
mod messages;
mod received;
mod receiving;
mod receptions;
mod refusals;
mod requests;
mod stages;
mod tokens;

pub use accepted::{AcceptedHead, kept_head};
pub use dates::http_date;
pub use expected::ExpectedBody;
pub use head_grammar::grammar_of_heads;
pub use heads::{HEAD_LIMIT, RequestHead, read_head};
pub use messages::message;
pub use received::Received;
pub use receiving::read_request;
pub use receptions::{head_is_by_front, request_is_by_front, request_is_its_bytes};
pub use refusals::{HeadFault, HeadRefusal};
pub use requests::{RequestParts, request_parts};
