//! The calls that take memory. Each has its arguments made for it alone, so that running out of memory stops one call and no
//! other.

use crate::person_growths::print_person_growths;
use crate::record_growths::print_record_growths;
use crate::results::{print_made, print_word};
use crate::sample_results::{both, made_of, text};
use crate::samples::{colours, field, form, least, numbers};
use anyhow::Result;
use lab_forms::{Choices, Field, Form, Kind, Value};
use lab_forms_texts::{Keys, LabCodes, Names, Notes, PersonCodes, Text, TextRule, Units};
use std::alloc::Global;
use std::io::{self, Print};

// More keys than a list has room for when it first grows.
const KEYS: [&str; 5] = ["lead", "iron", "zinc", "tin", "gold"];

/// Makes each call this number of times, and prints for each the text that it gave, a word where that is more than a text, or the
/// word of its fault.
pub(crate) fn print_growths(rt: &impl Print, alloc: Global, calls: u32) -> io::Result<()> {
    for _ in 0..calls {
        print_codes_and_names(rt, alloc)?;
        print_forms(rt, alloc)?;
        print_record_growths(rt, alloc)?;
        print_person_growths(rt, alloc)?;
    }
    Ok(())
}

fn print_codes_and_names(rt: &impl Print, alloc: Global) -> io::Result<()> {
    print_texts(rt, alloc, false)?;
    print_texts(rt, alloc, true)
}

// A text of each kind, or its copy.

fn print_texts(rt: &impl Print, alloc: Global, copied: bool) -> io::Result<()> {
    print_text::<LabCodes>(rt, copied, text(alloc, "aqua"))?;
    print_text::<PersonCodes>(rt, copied, text(alloc, "ada-1"))?;
    print_text::<Keys>(rt, copied, text(alloc, "lead"))?;
    print_names(rt, alloc, copied)
}

fn print_names(rt: &impl Print, alloc: Global, copied: bool) -> io::Result<()> {
    print_text::<Names>(rt, copied, text(alloc, "Aqua Lab"))?;
    print_text::<Notes>(rt, copied, text(alloc, "taken twice"))?;
    print_text::<Units>(rt, copied, text(alloc, "mg/L"))
}

fn print_text<R: TextRule>(rt: &impl Print, copied: bool, made: Result<Text<R>>) -> io::Result<()> {
    if copied {
        print_made(rt, made_of(made, Text::copy), Text::as_str)
    } else {
        print_made(rt, made, Text::as_str)
    }
}

fn print_forms(rt: &impl Print, alloc: Global) -> io::Result<()> {
    print_copied_kinds(rt, alloc)?;
    print_word(rt, made_of(field(alloc, "lead"), Field::copy), "field")?;
    print_word(rt, form(alloc, &KEYS), "form")?;
    print_word(rt, made_of(form(alloc, &KEYS), Form::copy), "form")?;
    print_values(rt, alloc)
}

fn print_copied_kinds(rt: &impl Print, alloc: Global) -> io::Result<()> {
    print_made(rt, made_of(least(alloc), Text::copy), Text::as_str)?;
    print_word(rt, made_of(colours(alloc), Choices::copy), "choices")?;
    print_word(rt, made_of(numbers(alloc), Kind::copy), "number")?;
    print_word(rt, made_of(choice(alloc), Kind::copy), "choice")
}

fn choice(alloc: Global) -> Result<Kind> {
    Ok(Kind::Choice {
        choices: colours(alloc)?,
    })
}

fn print_values(rt: &impl Print, alloc: Global) -> io::Result<()> {
    print_made(rt, value(alloc), Value::print)?;
    print_made(rt, made_of(value(alloc), Value::copy), Value::print)
}

fn value(alloc: Global) -> Result<Value> {
    let place = both(text(alloc, "lead"), text(alloc, "mg/L"));
    made_of(both(form(alloc, &KEYS), place), |(form, (key, unit))| {
        form.read_value(alloc, key, "7.50", unit)
    })
}
