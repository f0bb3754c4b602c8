//! Results of calls, printed, each as a line.

use anyhow::Result;
use std::io::{self, Print};

/// Prints the text of what a call made, or the word of its fault.
pub(crate) fn print_made<T: Drop, F: FnOnce(&T) -> &str + Drop>(
    rt: &impl Print,
    made: Result<T>,
    text: F,
) -> io::Result<()>
    requires { F.IsAlwaysCallable text }
{
    match made {
        Ok(made) => println!(rt; "{}", text(&made)),
        Err(fault) => println!(rt; "{fault}"),
    }
}

/// Prints a word where a call made what it should, or the word of its fault.
pub(crate) fn print_word<T: Drop>(rt: &impl Print, made: Result<T>, word: &str) -> io::Result<()> {
    match made {
        Ok(_) => println!(rt; "{word}"),
        Err(fault) => println!(rt; "{fault}"),
    }
}
