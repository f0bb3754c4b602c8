//! The rows of two laboratories, databases that are filled with them, what the tables say, desks
//! over them, and what is asked of the desks. No call ends a program, so that crates of tests may share them.
#![tactic(auto)]

mod crowd_texts;
mod crowds;
mod databases;
mod desks;
mod exchanges;
mod questions;
mod rows;
mod worked;
mod worked_rows;

pub use crowds::add_crowd;
pub use databases::{PLAIN, SPREAD, database, fill_each, make, said, said_of};
pub use desks::{ask, ask_both, database_of, desk, part, store};
pub use exchanges::{Exchange, moment, tick, words};
pub use rows::{AQUA_ROWS, BRICK_ROWS};
pub use worked::{
    A_RECORD_IS_OPENED_BESIDE_A_CROWD, A_SECOND_VALUE_WANTS_A_REASON_AND_BOTH_STAY,
    A_SESSION_RESTS_FOR_NINE_HUNDRED_SECONDS, AN_AUTHOR_WHO_IS_A_REVIEWER_TOO_DOES_NOT_REVIEW,
    AND_NOT_FOR_A_SECOND_MORE, ONE_FORM_AND_SAMPLE_MAKE_ONE_RECORD,
    THE_FIRST_SIGNING_TAKES_THE_CODE_AND_A_SECOND_PERSON_RELEASES, TOKEN_OF_ANN, TOKEN_OF_DAN,
    WHAT_IS_RELEASED_IS_AMENDED_AND_NOTHING_OVERWRITTEN, WHO_ENTERED_A_ROW_SIGNS_AS_AUTHOR_ALONE,
};
pub use worked_rows::{WORKED_AQUA_ROWS, WORKED_BRICK_ROWS};
