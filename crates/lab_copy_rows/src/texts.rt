//! The texts in the fields of a row: of formats, moments and digests, and of values that may be
//! missing.
ghost use Rattle.std.specs.Prelude.{◌≡◌, IsUtf8};
ghost use Rattle.lab_forms_texts.specs.Moment.{moment_text};
ghost use Rattle.lab_copy_rows.specs.Rows.{approval_name, edition_key, format_key, optional_text};
ghost use Rattle.lab_seal_versions.specs.Seals.{meaning_word};
ghost use Rattle.lab_seal_versions.specs.States.{state_word};

use crate::Edition;
use lab_forms_texts::{Text, TextRule};
use lab_seal_versions::{Format, Meaning, Moment, State};

// Each word is borrowed from the value that it describes, since all texts of a row have one
// lifetime.

/// The key of an edition.
pub(crate) fn edition_text(edition: &Edition) -> &str
    ensures { result.now ≡ edition_key edition.now }
{
    edition.key()
}

/// The format of a version's text.
pub(crate) fn format_key(format: &Format) -> &str
    ensures { result.now ≡ format_key format.now }
{
    match format {
        Format::One => "1",
        Format::Two { .. } => "2",
    }
}

/// Whether the form wants an approval, as a text.
pub(crate) fn approval_name(format: &Format) -> &str
    ensures { result.now ≡ approval_name format.now }
{
    match format {
        Format::Two { approval: true } => "approval",
        Format::One | Format::Two { approval: false } => "",
    }
}

/// The word of a state.
pub(crate) fn state_text(state: &State) -> &str
    ensures { result.now ≡ state_word state.now }
{
    state.word()
}

/// The word of a meaning.
pub(crate) fn meaning_text(meaning: &Meaning) -> &str
    ensures { result.now ≡ meaning_word meaning.now }
{
    meaning.word()
}

/// A text, or an empty one if there is none.
pub(crate) fn optional_text<R: TextRule>(text: &Option<Text<R>>) -> &str
    ensures { result.now ≡ optional_text text.now }
{
    match text {
        Some(text) => text.as_str(),
        None => "",
    }
}

/// The text of a moment.
pub(crate) fn moment_text(moment: Moment, printed: &mut [u8; 20]) -> &str
    ensures { result.now ≡ moment_text moment }
{
    moment.print(printed);
    text_of(printed)
}

/// The text of digits.
pub(crate) fn digits_text(digits: &[u8; 64]) -> &str
    requires { IsUtf8 digits.now }
    ensures { result.now ≡ digits.now }
{
    text_of(digits)
}

fn text_of(bytes: &[u8]) -> &str
    requires { IsUtf8 bytes.now }
    ensures { result.now ≡ bytes.now }
{
    match str::from_utf8(bytes) {
        Ok(text) => text,
        Err(_) => unreachable!(),
    }
}
