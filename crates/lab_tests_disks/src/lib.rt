//! Tests of files over disks in memory: each call of a disk is stopped in turn while a task is tried
//! on a file of laboratories; and a disk forgets what a failed sync had, and its file is written
//! anew. They stand apart, so that no crate is proved once more with them.
#![tactic(auto)]

#[cfg(test)]
mod events;
#[cfg(test)]
mod files;
#[cfg(test)]
mod forgetful;
#[cfg(test)]
mod images;
#[cfg(test)]
mod lost_byte;
#[cfg(test)]
mod stop_tests;
#[cfg(test)]
mod stops;
