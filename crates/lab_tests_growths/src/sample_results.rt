//! Results of calls, made of one another.

use anyhow::Result;
use lab_forms_texts::{Text, TextRule};
use std::alloc::Global;
use std::error::Error;

/// What a call makes of what was made before.
pub fn made_of<T: Drop, U, E: Error, F: FnOnce(&T) -> Result<U, E> + Drop>(
    given: Result<T>,
    make: F,
) -> Result<U>
    requires { F.IsAlwaysCallable make }
{
    let given = given?;
    Ok(make(&given)?)
}

/// Both of two that were made, or the fault of the first that wasn't.
pub fn both<A: Drop, B: Drop>(first: Result<A>, second: Result<B>) -> Result<(A, B)> {
    let first = first?;
    Ok((first, second?))
}

/// A code, a key, a name, a note or a unit.
pub fn text<R: TextRule>(alloc: Global, text: &str) -> Result<Text<R>> {
    Ok(Text::parse(alloc, text)?)
}
