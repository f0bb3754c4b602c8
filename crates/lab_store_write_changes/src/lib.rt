//! What is written inside one transaction, which a crate above begins and commits: forms, records,
//! versions, entries and signatures; the changes of a request, one after the other; and the rows of a
//! laboratory that is founded (21 CFR 11.10(e) and 11.70; ISO/IEC 17025:2017, 7.5.2 and 7.11.3).
#![tactic(auto)]

mod changes;
mod entries;
mod forms;
mod framed;
mod kinds;
mod named;
mod named_forms;
mod newborns;
mod places;
mod records;
mod rows;
mod signatures;
mod texts;
mod versions;

pub use changes::all_inside;
pub use entries::enter_row;
pub use forms::add_form;
pub use newborns::{is_asked, laboratory};
pub use records::add_record;
pub use rows::{add_lab, add_rows};
pub use signatures::sign_version;
pub use versions::open_version;
