//! Tests of `lab_move_write`, `lab_move_write` and `lab_move` over databases in memory: they stand
//! apart, so that the crates aren't proved once more with them.
#![tactic(auto)]

#[cfg(test)]
mod calls;
#[cfg(test)]
mod making_tests;
#[cfg(test)]
mod moving_tests;
#[cfg(test)]
mod old_files;
#[cfg(test)]
mod old_texts;
#[cfg(test)]
mod parts;
#[cfg(test)]
mod placing_tests;
#[cfg(test)]
mod samples;
