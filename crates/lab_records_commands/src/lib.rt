//! The result of each command: on sessions and accounts (21 CFR 11.10(d) and 11.300), and on forms
//! and records (ISO/IEC 17025:2017, 7.5; 21 CFR 11.10, 11.50).
#![tactic(auto)]

mod accounts;
mod counts;
mod readings;
mod records;
mod sessions;

pub use accounts::{
    asking_done, changing_done, confirming_done, enrolling_done, retiring_done, setting_roles_done,
    unlocking_done,
};
pub use readings::{
    copied_rows, form_read_done, person_lines, record_lines, record_read_done, version_read_done,
};
pub use records::{
    AskedSignature, amending_done, asked_signing_done, entering_done, making_done,
    opening_record_done,
};
pub use sessions::{closed_done, opening_done};
