//! All that a slice of a laboratory has, as a text: each thing with a bar after it.
use lab_forms_texts::OutOfMemory;
use lab_records_kept::{
    Ask, FormVersion, FoundRecord, Password, Person, Record, Signature, Slice, TrailRow, Version,
};
use lab_seal_hashes::Verifier;
use std::fmt::Debug;

type Pushed = Result<(), OutOfMemory>;

fn push<T: Debug>(text: &mut Vec<u8>, thing: &T) -> Pushed {
    let told = format!(in *text.allocator(); "{thing:?}|")?;
    text.extend_from_slice(told.as_bytes())?;
    Ok(())
}

fn push_verifier(text: &mut Vec<u8>, verifier: &Verifier) -> Pushed {
    let parts = verifier.parts();
    push(text, &parts.salt)?;
    push(text, &parts.rounds)?;
    push(text, &parts.bytes)
}

fn push_password(text: &mut Vec<u8>, password: &Password) -> Pushed {
    match password {
        Password::Unset => push(text, &"unset"),
        Password::Chosen { verifier, changed } => {
            push_verifier(text, verifier)?;
            push(text, changed)
        }
        Password::OneTime {
            first,
            second,
            confirmed,
        } => {
            push_verifier(text, first)?;
            push_verifier(text, second)?;
            push(text, confirmed)
        }
    }
}

fn push_ask(text: &mut Vec<u8>, ask: &Ask) -> Pushed {
    push(text, &ask.asker)?;
    push(text, &ask.asked)?;
    push_verifier(text, &ask.first)
}

fn push_person(text: &mut Vec<u8>, person: &Person) -> Pushed {
    push(text, &person.code)?;
    push(text, &person.name)?;
    push(text, &person.roles)?;
    push(text, &person.retired)?;
    push(text, &person.failures)?;
    push(text, &person.locked)?;
    push_password(text, &person.password)?;
    match &person.ask {
        Some(ask) => push_ask(text, ask),
        None => push(text, &"no ask"),
    }
}

fn push_form(text: &mut Vec<u8>, form: &FormVersion) -> Pushed {
    push(text, &form.code)?;
    push(text, &form.version)?;
    push(text, &form.form)
}

fn push_signature(text: &mut Vec<u8>, signature: &Signature) -> Pushed {
    push(text, &signature.person)?;
    push(text, &signature.name)?;
    push(text, &signature.meaning)?;
    push(text, &signature.moment)?;
    push(text, &signature.digest)?;
    push(text, &signature.seal)
}

fn push_version(text: &mut Vec<u8>, version: &Version) -> Pushed {
    push(text, &version.format)?;
    push(text, &version.origin)?;
    push(text, &version.opener)?;
    push(text, &version.opened)?;
    push(text, &version.rows)?;
    for signature in version.signatures.as_slice() {
        push_signature(text, signature)?;
    }
    Ok(())
}

fn push_record(text: &mut Vec<u8>, record: &Record) -> Pushed {
    push(text, &record.number)?;
    push_form(text, &record.form)?;
    push(text, &record.sample)?;
    for version in record.versions.as_slice() {
        push_version(text, version)?;
    }
    Ok(())
}

fn push_row(text: &mut Vec<u8>, row: &TrailRow) -> Pushed {
    push(text, &row.number)?;
    push(text, &row.moment)?;
    push(text, &row.person)?;
    push(text, &row.action.word())?;
    push(text, &row.subject.as_str())
}

fn push_found_person(text: &mut Vec<u8>, person: &Option<Person>) -> Pushed {
    match person {
        Some(person) => push_person(text, person),
        None => push(text, &"nobody"),
    }
}

fn push_found_form(text: &mut Vec<u8>, form: &Option<FormVersion>) -> Pushed {
    match form {
        Some(form) => push_form(text, form),
        None => push(text, &"no form"),
    }
}

fn push_found_record(text: &mut Vec<u8>, found: &Option<FoundRecord>) -> Pushed {
    match found {
        Some(found) => push_record(text, found.kept()),
        None => push(text, &"no record"),
    }
}

fn push_persons(text: &mut Vec<u8>, persons: &[Person]) -> Pushed {
    push(text, &persons.len())?;
    for person in persons {
        push_person(text, person)?;
    }
    Ok(())
}

fn push_records(text: &mut Vec<u8>, records: &[Record]) -> Pushed {
    push(text, &records.len())?;
    for record in records {
        push_record(text, record)?;
    }
    Ok(())
}

fn push_trail(text: &mut Vec<u8>, rows: &[TrailRow]) -> Pushed {
    push(text, &rows.len())?;
    for row in rows {
        push_row(text, row)?;
    }
    Ok(())
}

fn push_head(text: &mut Vec<u8>, slice: &Slice) -> Pushed {
    push(text, &slice.code)?;
    push(text, &slice.name)?;
    push(text, &slice.last)?;
    push(text, &slice.strays)?;
    push(text, &slice.counts.persons)?;
    push(text, &slice.counts.sessions)?;
    push(text, &slice.counts.records)?;
    push(text, &slice.counts.trail)
}

/// Tells all of it.
pub(crate) fn push_slice(text: &mut Vec<u8>, slice: &Slice) -> Pushed {
    push_head(text, slice)?;
    push(text, &slice.session)?;
    push_found_person(text, &slice.caller)?;
    push_found_person(text, &slice.person)?;
    push_found_form(text, &slice.form)?;
    push_found_record(text, &slice.filed)?;
    push_persons(text, slice.persons.as_slice())?;
    push_records(text, slice.records.as_slice())?;
    push_trail(text, slice.trail.as_slice())
}
