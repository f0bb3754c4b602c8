//! The twelve tables of the file in which laboratories are kept: what they mean for one laboratory, when they are well
//! kept, and what a change or a founding makes of them (21 CFR 11.10(c) and (e); ISO/IEC 17025:2017, 7.5, 7.11.3 and 8.4).
//! Keepers that read and write the tables stand on these definitions. The functions are laws: each does nothing, and its
//! contract states that what is written is read back, and that the tables after a change mean the laboratory after the
//! change, while every other laboratory is unchanged and the tables stay well kept.
#![tactic(auto)]

mod changes;
mod keeping;
mod people;
mod placing;
mod records;
mod schema;

pub use changes::changes_of_the_tables_mean_themselves;
pub use keeping::{a_change_keeps_the_tables_well, a_founding_keeps_the_tables_well};
pub use people::a_change_of_people_or_forms_means_itself;
pub use placing::a_founded_laboratory_is_placed;
pub use records::a_change_of_records_means_itself;
pub use schema::SCHEMA;
