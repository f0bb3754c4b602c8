//! What is done to the versions of a record that was looked up: entries, amendments, and signatures
//! with their seals, each with the first refusal in order (ISO/IEC 17025:2017, 7.5; 21 CFR 11.50,
//! 11.70 and 11.200(a)). Nothing is changed here.
#![tactic(auto)]

mod amending;
mod entering;
mod signatures;
mod signing;

pub use amending::amend;
pub use entering::enter;
pub use signatures::{
    approval_refusal, digest_refusal, is_code_wanted, reason_refusal, signer_refusal, state_refusal,
};
pub use signing::{content_refusal, sign, version_refusal};
