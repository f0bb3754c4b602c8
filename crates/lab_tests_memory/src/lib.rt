//! Tests of laboratories in memory: as a keeper, copied out of one, and served in one process for
//! two clients over a network in memory. They stand apart, so that no crate is proved once more with
//! them.
#![tactic(auto)]

#[cfg(test)]
mod copies;
#[cfg(test)]
mod copy_tests;
#[cfg(test)]
mod events;
#[cfg(test)]
mod hosts;
#[cfg(test)]
mod keeper_tests;
#[cfg(test)]
mod kept;
#[cfg(test)]
mod made;
#[cfg(test)]
mod served_tests;
#[cfg(test)]
mod streets;
#[cfg(test)]
mod told;
