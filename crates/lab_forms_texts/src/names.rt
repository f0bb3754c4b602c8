//! The texts that name a laboratory, a person, a form, a field or a thing, and the texts that give
//! a reason: codes, keys, names, notes and units, each with its rule.
ghost use Rattle.std.specs.Prelude.{◌≡◌};
ghost use Rattle.std.specs.List.{list_all};
ghost use Rattle.lab_forms_texts.specs.Names.{is_code_byte, is_code, is_lab_code, is_person_code, is_key, is_name_byte, is_name, is_note_byte, is_note, is_unit, is_writing};

use crate::text::{Text, TextRule};

/// The most characters of a laboratory's code.
pub const LAB_CODE_LIMIT: usize = 12;

/// The fewest characters of a person's code.
pub const PERSON_CODE_LEAST: usize = 2;

/// The most characters of a person's code.
pub const PERSON_CODE_LIMIT: usize = 16;

/// The most characters of a key.
pub const KEY_LIMIT: usize = 24;

/// The most bytes of a name.
pub const NAME_LIMIT: usize = 120;

/// The most bytes of a note.
pub const NOTE_LIMIT: usize = 1000;

/// The most bytes of a unit.
pub const UNIT_LIMIT: usize = 20;

/// The DEL character.
const DELETE: u8 = 0x7f;

fn is_code_character(byte: u8, mark: u8) -> bool
    ensures { result ≡ is_code_byte mark byte }
{
    byte.is_ascii_lowercase() || byte.is_ascii_digit() || byte == mark
}

fn are_code_characters(bytes: &[u8], mark: u8) -> bool
    ensures { result ≡ list_all (is_code_byte mark) bytes.now }
{
    bytes.iter().all(|byte| is_code_character(*byte, mark))
}

// Whether the text is a code of `least` to `most` characters: letters, digits and `mark`.
fn is_code_text(text: &str, mark: u8, least: usize, most: usize) -> bool
    ensures { result ≡ is_code mark least most text.now }
{
    let bytes = text.as_bytes();
    let Some(first) = bytes.first() else {
        return false;
    };
    if bytes.len() < least || bytes.len() > most || !first.is_ascii_lowercase() {
        return false;
    }
    are_code_characters(bytes, mark)
}

fn is_printed(byte: u8) -> bool
    ensures { result ≡ is_name_byte byte }
{
    byte >= b' ' && byte != DELETE
}

fn are_printed(bytes: &[u8]) -> bool
    ensures { result ≡ list_all is_name_byte bytes.now }
{
    bytes.iter().all(|byte| is_printed(*byte))
}

fn is_note_character(byte: u8) -> bool
    ensures { result ≡ is_note_byte byte }
{
    is_printed(byte) || byte == b'\n'
}

fn are_note_characters(bytes: &[u8]) -> bool
    ensures { result ≡ list_all is_note_byte bytes.now }
{
    bytes.iter().all(|byte| is_note_character(*byte))
}

/// The rule of laboratories' codes.
#[derive(Drop)]
pub struct LabCodes;

impl TextRule for LabCodes {
    ghost admits = { is_lab_code };

    #[tactic(auto, unfolding(crate::specs::Names::is_lab_code))]
    fn admits(text: &str) -> bool {
        is_code_text(text, b'-', 1, LAB_CODE_LIMIT)
    }
}

/// A laboratory's code: 1 to 12 characters of `a` to `z`, `0` to `9` and `-`, the first a letter.
pub type LabCode = Text<LabCodes>;

/// The rule of persons' codes.
#[derive(Drop)]
pub struct PersonCodes;

impl TextRule for PersonCodes {
    ghost admits = { is_person_code };

    #[tactic(auto, unfolding(crate::specs::Names::is_person_code))]
    fn admits(text: &str) -> bool {
        is_code_text(text, b'-', PERSON_CODE_LEAST, PERSON_CODE_LIMIT)
    }
}

/// A person's code: 2 to 16 characters of `a` to `z`, `0` to `9` and `-`, the first a letter.
pub type PersonCode = Text<PersonCodes>;

/// The rule of keys.
#[derive(Drop)]
pub struct Keys;

impl TextRule for Keys {
    ghost admits = { is_key };

    #[tactic(auto, unfolding(crate::specs::Names::is_key))]
    fn admits(text: &str) -> bool {
        is_code_text(text, b'_', 1, KEY_LIMIT)
    }
}

/// The key of a form or of a field: 1 to 24 characters of `a` to `z`, `0` to `9` and `_`, the first
/// a letter.
pub type Key = Text<Keys>;

/// The rule of names.
#[derive(Drop)]
pub struct Names;

impl TextRule for Names {
    ghost admits = { is_name };

    #[tactic(auto, using(crate::proofs::NamesLemmas::is_name_of_bytes), unfolding(crate::specs::Names::is_name))]
    fn admits(text: &str) -> bool {
        let bytes = text.as_bytes();
        let (Some(first), Some(last)) = (bytes.first(), bytes.last()) else {
            return false;
        };
        if bytes.len() > NAME_LIMIT || *first == b' ' || *last == b' ' {
            return false;
        }
        are_printed(bytes)
    }
}

/// The printed name of a laboratory, a person or a thing: 1 to 120 bytes of UTF-8, without control
/// characters, and without a space at either end.
pub type Name = Text<Names>;

/// The rule of notes.
#[derive(Drop)]
pub struct Notes;

impl TextRule for Notes {
    ghost admits = { is_note };

    #[tactic(auto, using(crate::proofs::NamesLemmas::is_note_of_bytes), unfolding(crate::specs::Names::is_note))]
    fn admits(text: &str) -> bool {
        let bytes = text.as_bytes();
        !bytes.is_empty() && bytes.len() <= NOTE_LIMIT && are_note_characters(bytes)
    }
}

/// What a person writes, such as the reason of a change: 1 to 1,000 bytes of UTF-8, without control
/// characters except the line feed.
pub type Note = Text<Notes>;

/// The rule of units.
#[derive(Drop)]
pub struct Units;

impl TextRule for Units {
    ghost admits = { is_unit };

    #[tactic(auto, unfolding(crate::specs::Names::is_unit))]
    fn admits(text: &str) -> bool {
        text.is_empty() || (text.len() <= UNIT_LIMIT && Names::admits(text))
    }
}

/// The unit of a number: empty, or a name of at most 20 bytes.
pub type Unit = Text<Units>;

/// The rule of texts as they are written, which admits every text.
#[derive(Drop)]
pub struct Writings;

impl TextRule for Writings {
    ghost admits = { is_writing };

    fn admits(_text: &str) -> bool {
        true
    }
}

/// A text as it is written, which no rule has checked.
pub type Writing = Text<Writings>;
