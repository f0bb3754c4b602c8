//! Tests by doors alone: of `lab_desk` over a connection and in runs, also over a keeper that
//! refuses every second call, by turns for memory and for storage; and of `lab_store` over databases
//! in memory, of what no command comes to. They stand apart, so that no crate is proved once more
//! with them.
#![tactic(auto)]

#[cfg(test)]
mod body_tests;
#[cfg(test)]
mod create_tests;
#[cfg(test)]
mod databases;
#[cfg(test)]
mod founding_tests;
#[cfg(test)]
mod made;
#[cfg(test)]
mod moody;
mod names_inside;
mod names_outside;
#[cfg(test)]
mod refused_request_tests;
#[cfg(test)]
mod refused_request_texts;
#[cfg(test)]
mod refused_run_tests;
#[cfg(test)]
mod refused_run_texts;
#[cfg(test)]
mod run_tests;
#[cfg(test)]
mod run_texts;
#[cfg(test)]
mod streams;
#[cfg(test)]
mod texts;
#[cfg(test)]
mod writer_tests;
