//! Tests of `twin` of `lab_desk`, a desk beside another that holds more, in lists and in tables, and
//! of `load` of `lab_store` over the same tables. They stand apart, so that no crate is proved once
//! more with them.
#![tactic(auto)]

#[cfg(test)]
mod day;
#[cfg(test)]
mod needs;
#[cfg(test)]
mod row_tests;
#[cfg(test)]
mod slice_tests;
#[cfg(test)]
mod slices;
#[cfg(test)]
mod story_tests;
#[cfg(test)]
mod tests;
#[cfg(test)]
mod texts;
