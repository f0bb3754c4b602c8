//! What is printed of a laboratory that is loaded in two slices, a line for each thing: words, each
//! with a bar after it.
use itoa::Buffer;
use lab_forms_texts::OutOfMemory;
use lab_records_kept::{Moment, Password, Person, Role, Roles, Session, Slice, TrailRow};
use std::process::Abort;

/// What the first slice tells of the laboratory, of the session that is needed and of its persons,
/// and the second of its trail.
pub(crate) fn slices_text(rt: &(impl Abort + AllocGlobal), most: &Slice, rest: &Slice) -> String {
    let mut text = String::new(rt.alloc());
    push_slices(&mut text, most, rest).expect(rt, "memory");
    text
}

fn push_slices(text: &mut String, most: &Slice, rest: &Slice) -> Result<(), OutOfMemory> {
    push_head(text, most)?;
    if let Some(session) = &most.session {
        push_session(text, session)?;
    }
    for person in most.persons.as_slice() {
        push_person(text, person)?;
    }
    push_trail(text, rest.trail.as_slice())
}

fn push_word(text: &mut String, word: &str) -> Result<(), OutOfMemory> {
    text.push_str(word)?;
    text.push_str("|")?;
    Ok(())
}

fn push_end(text: &mut String) -> Result<(), OutOfMemory> {
    text.push_str("\n")?;
    Ok(())
}

// One word or the other.
fn push_either(
    text: &mut String,
    is_first: bool,
    first: &str,
    second: &str,
) -> Result<(), OutOfMemory> {
    push_word(text, if is_first { first } else { second })
}

fn push_number(text: &mut String, number: u64) -> Result<(), OutOfMemory> {
    let mut buffer = Buffer::new();
    push_word(text, buffer.format(number))
}

fn push_moment(text: &mut String, moment: Moment) -> Result<(), OutOfMemory> {
    push_number(text, moment.seconds() as u64)
}

fn push_head(text: &mut String, slice: &Slice) -> Result<(), OutOfMemory> {
    push_word(text, "lab")?;
    push_word(text, slice.code.as_str())?;
    push_word(text, slice.name.as_str())?;
    push_moment(text, slice.last)?;
    push_number(text, slice.strays)?;
    push_end(text)
}

fn push_session(text: &mut String, session: &Session) -> Result<(), OutOfMemory> {
    push_word(text, "session")?;
    push_number(text, u64::from(session.number.get()))?;
    push_word(text, session.person.as_str())?;
    push_moment(text, session.opened)?;
    push_moment(text, session.last)?;
    push_either(text, session.closed, "closed", "open")?;
    push_either(text, session.signed, "signed", "unsigned")?;
    push_end(text)
}

fn push_person(text: &mut String, person: &Person) -> Result<(), OutOfMemory> {
    push_word(text, "person")?;
    push_word(text, person.code.as_str())?;
    push_word(text, person.name.as_str())?;
    push_roles(text, &person.roles)?;
    push_either(text, person.retired, "retired", "here")?;
    push_number(text, u64::from(person.failures))?;
    push_account(text, person)?;
    push_end(text)
}

fn push_roles(text: &mut String, roles: &Roles) -> Result<(), OutOfMemory> {
    for role in Role::ALL {
        if roles.has(role) {
            text.push_str(role.word())?;
            text.push_str(" ")?;
        }
    }
    push_word(text, "")
}

fn push_account(text: &mut String, person: &Person) -> Result<(), OutOfMemory> {
    match person.locked {
        Some(locked) => push_moment(text, locked)?,
        None => push_word(text, "-")?,
    }
    let is_unset = matches!(person.password, Password::Unset);
    push_either(text, is_unset, "unset", "set")?;
    push_either(text, person.ask.is_none(), "no ask", "ask")
}

fn push_trail(text: &mut String, trail: &[TrailRow]) -> Result<(), OutOfMemory> {
    for row in trail {
        push_row(text, row)?;
    }
    Ok(())
}

fn push_row(text: &mut String, row: &TrailRow) -> Result<(), OutOfMemory> {
    push_word(text, "trail")?;
    push_number(text, u64::from(row.number.get()))?;
    push_moment(text, row.moment)?;
    match &row.person {
        Some(person) => push_word(text, person.as_str())?,
        None => push_word(text, "-")?,
    }
    push_word(text, row.action.word())?;
    push_word(text, row.subject.as_str())?;
    push_end(text)
}
