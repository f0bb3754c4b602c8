//! JSON values as they stand in bodies (RFC 8259): the members of an object, the values at their
//! names, each element of a list, and why a body is refused. This crate knows no commands.
#![tactic(auto)]

mod members;
mod parts;
mod readings;
mod refusals;
mod values;

pub use members::{MemberKind, MemberWanted, each_has, elements_at, flag_at, has_members, str_at};
pub use parts::{Element, each_of, typed_at};
pub use readings::{
    admitted_text, digest_at, named_at, named_if_at, ordinal_at, roles_at, text_at, wanted_member,
    whole_at,
};
pub use refusals::{BodyFault, BodyRefusal};
pub use values::value_of;
