//! Tests of the boxes forms and seal, of `lab_people_access` and of `lab_wire_heads`, on whole answers: vectors from
//! outside, and what no reply shows. They stand apart, so that the crates aren't proved once more with them.
#![tactic(auto)]

#[cfg(test)]
mod bytes;
#[cfg(test)]
mod form_tests;
#[cfg(test)]
mod hash_tests;
#[cfg(test)]
mod head_tests;
#[cfg(test)]
mod message_tests;
#[cfg(test)]
mod rules_tests;
#[cfg(test)]
mod seal_tests;
#[cfg(test)]
mod sending_tests;
#[cfg(test)]
mod text_tests;
#[cfg(test)]
mod version_tests;
