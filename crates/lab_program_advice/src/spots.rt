//! For a person at a terminal: the first place where bytes aren't a founding that is accepted.

use lab_desk_foundings::BODY_LIMIT;
use lab_forms_texts::{NAME_LIMIT, PersonCode};
use serde_json::Value;
use std::alloc::Global;
use std::io::{self, Write};

/// The owner of a name.
#[derive(Clone, Copy, Debug, PartialEq, Eq)]
pub enum Whose {
    /// The first, the second or the third founder.
    Founder(usize),
    /// The laboratory.
    Lab,
}

impl Whose {
    fn write<W: Write>(self, errors: &mut W) -> io::Result<()> {
        match self {
            Whose::Founder(place) => write!(errors, "Founder {place}'s name"),
            Whose::Lab => write!(errors, "The laboratory's name"),
        }
    }
}

/// The first place where bytes aren't a founding.
#[derive(Clone, Copy, Debug, PartialEq, Eq)]
pub enum Spot {
    /// There are no bytes, or only blanks.
    Nothing,
    /// There are more bytes than a founding may have.
    Long,
    /// At this line and column the bytes stop being JSON.
    Json { line: usize, column: usize },
    /// The bytes are JSON, but not a founding.
    Members,
    /// The code of this founder isn't a code.
    Code(usize),
    /// This name isn't allowed, for this reason.
    Name(Whose, &'static str),
    /// These two founders have the same code.
    Shared(usize, usize),
    /// The password of this founder has this many bytes.
    Password(usize, usize),
}

// The text of a member.
fn text_at<'v>(value: &'v Value, name: &str) -> Option<&'v str> {
    value.get(name)?.as_str()
}

// Why a text isn't a name, or `None` if it is one.
fn name_fault(text: &str) -> Option<&'static str> {
    if text.is_empty() || text.len() > NAME_LIMIT {
        Some("has to have 1 to 120 bytes")
    } else if text.starts_with(' ') || text.ends_with(' ') {
        Some("has to have no space at its ends")
    } else if text.chars().any(|one| one.is_ascii_control()) {
        Some("has to have no control character, as a line's end or a tab")
    } else {
        None
    }
}

// What is wrong with the texts of the founder at a place, in the order in which a founding is read.
fn spot_in(alloc: Global, founder: &Value, place: usize) -> Option<Spot> {
    let (Some(code), Some(name)) = (text_at(founder, "code"), text_at(founder, "name")) else {
        return Some(Spot::Members);
    };
    if PersonCode::parse(alloc, code).is_err() {
        return Some(Spot::Code(place));
    }
    let fault = name_fault(name)?;
    Some(Spot::Name(Whose::Founder(place), fault))
}

// What is wrong with the passwords.
fn spot_in_passwords(founders: &[Value]) -> Option<Spot> {
    for (place, founder) in founders.iter().enumerate() {
        let length = text_at(founder, "password")?.len();
        if !(12..=128).contains(&length) {
            return Some(Spot::Password(place + 1, length));
        }
    }
    None
}

// The two founders that have the same code.
fn spot_in_codes(one: &Value, two: &Value, three: &Value) -> Option<Spot> {
    let first = text_at(one, "code")?;
    let second = text_at(two, "code")?;
    let third = text_at(three, "code")?;
    if first == second {
        Some(Spot::Shared(1, 2))
    } else if first == third {
        Some(Spot::Shared(1, 3))
    } else if second == third {
        Some(Spot::Shared(2, 3))
    } else {
        None
    }
}

// What is wrong with three founders and the laboratory's name, in the order in which a founding is
// read.
fn spot_among(alloc: Global, value: &Value, founders: &[Value]) -> Option<Spot> {
    let [one, two, three] = founders else {
        return Some(Spot::Members);
    };
    for (place, founder) in founders.iter().enumerate() {
        if let Some(spot) = spot_in(alloc, founder, place + 1) {
            return Some(spot);
        }
    }
    let Some(name) = text_at(value, "name") else {
        return Some(Spot::Members);
    };
    if let Some(fault) = name_fault(name) {
        return Some(Spot::Name(Whose::Lab, fault));
    }
    match spot_in_codes(one, two, three) {
        Some(spot) => Some(spot),
        None => spot_in_passwords(founders),
    }
}

impl Spot {
    /// Returns the first place where these bytes, which aren't a founding, stop being one.
    pub fn of(alloc: Global, bytes: &[u8]) -> Spot {
        if bytes.iter().all(|byte| byte.is_ascii_whitespace()) {
            return Spot::Nothing;
        }
        if bytes.len() > BODY_LIMIT {
            return Spot::Long;
        }
        match Value::from_slice(alloc, bytes) {
            Ok(value) => Spot::within(alloc, &value),
            Err(error) => Spot::Json {
                line: error.line(),
                column: error.column(),
            },
        }
    }

    // What keeps JSON from being a founding that is taken.
    fn within(alloc: Global, value: &Value) -> Spot {
        match value.get("founders").and_then(Value::as_array) {
            Some(founders) => {
                spot_among(alloc, value, founders.as_slice()).unwrap_or(Spot::Members)
            }
            None => Spot::Members,
        }
    }

    /// Returns the same place for bytes that aren't a founding's body, whose texts aren't checked.
    pub(crate) fn of_body(self) -> Spot {
        match self {
            Spot::Nothing | Spot::Long | Spot::Json { .. } => self,
            _ => Spot::Members,
        }
    }

    /// Writes the place, in a line.
    pub(crate) fn write<W: Write>(self, errors: &mut W) -> io::Result<()> {
        match self {
            Spot::Nothing => writeln!(
                errors,
                "Standard input is empty; 'labdesk-found' asks for a founding and hands it in."
            ),
            Spot::Long => writeln!(
                errors,
                "Standard input is longer than 1,000,000 bytes, which is the most of a founding."
            ),
            Spot::Json { line, column } => writeln!(
                errors,
                "Standard input holds no founding: its JSON breaks at line {line}, column {column}."
            ),
            Spot::Members => writeln!(
                errors,
                "Standard input holds JSON, but no founding: 'name', and 'founders' with the 'code', 'name' and 'password' of three persons."
            ),
            Spot::Code(place) => writeln!(
                errors,
                "Founder {place}'s code has to be 2 to 16 of a to z, 0 to 9 and '-', a letter first."
            ),
            Spot::Name(whose, fault) => {
                whose.write(errors)?;
                writeln!(errors, " {fault}.")
            }
            Spot::Shared(one, other) => writeln!(
                errors,
                "Founders {one} and {other} have the same code: each has to have one of their own."
            ),
            Spot::Password(place, length) => writeln!(
                errors,
                "Founder {place}'s password has {length} bytes: it has to have 12 to 128."
            ),
        }
    }
}
