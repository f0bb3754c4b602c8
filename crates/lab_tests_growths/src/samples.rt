//! Forms and their parts, made of the texts that the workloads take. The only error is out of memory.

use crate::sample_results::{both, text};
use anyhow::Result;
use lab_forms::{Bound, Choices, Field, Form, Kind};
use lab_forms_texts::{Name, OutOfMemory};
use std::alloc::Global;

// More names than a list has room for when it first grows.
const COLOURS: [&str; 5] = ["clear", "pale", "cloudy", "brown", "black"];

/// The least amount of the numbers.
pub fn least(alloc: Global) -> Result<Bound> {
    let text = String::from_str(alloc, "0").map_err(OutOfMemory::from)?;
    Ok(Bound::new(text))
}

/// Numbers of two decimals in mg/L, from the least.
pub fn numbers(alloc: Global) -> Result<Kind> {
    let (unit, least) = both(text(alloc, "mg/L"), least(alloc))?;
    Ok(Kind::Number {
        unit,
        decimals: 2,
        min: Some(least),
        max: None,
    })
}

/// The names of colours.
pub fn colours(alloc: Global) -> Result<Choices> {
    let mut names = Vec::new(alloc);
    for colour in &COLOURS {
        add_name(alloc, &mut names, colour)?;
    }
    Ok(Choices::new(names))
}

fn add_name(alloc: Global, names: &mut Vec<Name>, name: &str) -> Result<()> {
    let name = text(alloc, name)?;
    Ok(names.push(name).map_err(OutOfMemory::from)?)
}

/// A field of numbers, labelled by its key.
pub fn field(alloc: Global, key: &str) -> Result<Field> {
    let labelled = both(text(alloc, key), text(alloc, key));
    let ((key, label), kind) = both(labelled, numbers(alloc))?;
    Ok(Field {
        key,
        label,
        required: true,
        kind,
    })
}

/// A form of a field of numbers for each key.
pub fn form(alloc: Global, keys: &[&str]) -> Result<Form> {
    let mut fields = Vec::new(alloc);
    for key in keys {
        add_field(alloc, &mut fields, key)?;
    }
    Ok(Form::make(fields, false)?)
}

fn add_field(alloc: Global, fields: &mut Vec<Field>, key: &str) -> Result<()> {
    let field = field(alloc, key)?;
    Ok(fields.push(field).map_err(OutOfMemory::from)?)
}
