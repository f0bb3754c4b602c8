//! How far a copy is read: a row that is longer than any valid row isn't read to its end.
ghost use Rattle.std.specs.Prelude.{◌≡◌, ◌≤◌, ℕ, List, ◌++◌, false, length, take};
ghost use Rattle.csv.specs.Machine.{in_field, start_field, start_record, step};
ghost use Rattle.csv.specs.Reading.{default_config};
ghost use Rattle.csv.specs.declared.parser.Action.TheVariants as act;
ghost use Rattle.csv.specs.declared.parser.State.TheVariants as st;
ghost use Rattle.lab_copy.specs.Fronts.{after, front, is_too_long, mark_after, so_far, state_at, stepped, row_begun};
ghost use Rattle.lab_copy.specs.Private.Fronts.{text_begun};

use lab_copy_lines::COLUMN_COUNT;
use lab_forms_texts::NOTE_LIMIT;

/// The number of fields of a valid row.
const MOST_FIELDS: u32 = COLUMN_COUNT as u32;

/// The most bytes of a field: those of the longest note.
const MOST_BYTES: u32 = NOTE_LIMIT as u32;

/// The state of a CSV reader after the bytes of a row so far.
#[derive(Clone, Copy, Debug, PartialEq, Eq)]
enum Inside {
    /// The row has no byte yet.
    RowStart,
    /// The row has no byte yet, and a CR came before it, to which a LF may belong.
    ReturnEnd,
    /// A field has no byte yet.
    FieldStart,
    /// Inside a field without quotes.
    Plain,
    /// Inside quotes.
    Quoted,
    /// After a quote that ends the quotes, unless another quote follows.
    QuoteEnd,
}

/// A row so far: how many bytes of a byte order mark the text has (3 if it has something else), the
/// state of the CSV reader, how many fields of the row have ended, and how many bytes the current
/// field has.
#[derive(Clone, Copy, Debug, PartialEq, Eq)]
pub(crate) struct RowSoFar {
    mark: u8,
    inside: Inside,
    fields: u32,
    bytes: u32,
}

impl RowSoFar {
    /// The start of a text that may begin with a byte order mark.
    pub(crate) fn of_text() -> RowSoFar
        ensures { so_far result ≡ text_begun }
    {
        RowSoFar {
            mark: 0,
            ..RowSoFar::of_row()
        }
    }

    // The start of a row.
    fn of_row() -> RowSoFar
        ensures { so_far result ≡ row_begun }
    {
        RowSoFar {
            mark: 3,
            inside: Inside::RowStart,
            fields: 0,
            bytes: 0,
        }
    }

    /// Whether the row is longer than any valid row.
    pub(crate) fn is_too_long(self) -> bool
        ensures { result ≡ is_too_long (so_far self) }
    {
        self.fields >= MOST_FIELDS || self.bytes > MOST_BYTES
    }

    /// Goes over the bytes that follow, until the row is too long, and returns how many bytes these
    /// are.
    pub(crate) fn pass(&mut self, bytes: &[u8]) -> usize
        requires short { is_too_long (so_far self.old) ≡ false }
        ensures within { result ≤ length bytes.now }
        ensures none { result ≡ 0 → length bytes.now ≡ 0 }
        ensures passed { (rest : List ℕ) → front (so_far self.old) (bytes.now ++ rest)
            ≡ take result bytes.now ++ front (so_far self.new) rest }
    {
        for at in 0..bytes.len() {
            *self = self.after(bytes[at]);
            if self.is_too_long() {
                return at + 1;
            }
        }
        bytes.len()
    }

    // The row with one more byte.
    fn after(self, byte: u8) -> RowSoFar
        requires { is_too_long (so_far self) ≡ false }
        ensures { so_far result ≡ after (so_far self) byte }
    {
        if self.mark == 2 && byte == 0xBF {
            return RowSoFar::of_row();
        }
        let row = RowSoFar {
            mark: mark_after(self.mark, byte),
            ..self
        };
        row.stepped(byte)
    }

    // The row with one more byte, without a look at the mark.
    fn stepped(self, byte: u8) -> RowSoFar
        requires { is_too_long (so_far self) ≡ false }
        ensures { so_far result
            ≡ stepped (step default_config (state_at self.inside) byte) (so_far self) }
    {
        match self.inside {
            Inside::RowStart | Inside::ReturnEnd => self.in_row_start(byte),
            Inside::FieldStart => self.in_field_start(byte),
            Inside::Plain => self.in_plain(byte),
            Inside::Quoted if byte == b'"' => self.at(Inside::QuoteEnd),
            Inside::Quoted => self.longer(Inside::Quoted),
            Inside::QuoteEnd if byte == b'"' => self.longer(Inside::Quoted),
            Inside::QuoteEnd => self.in_plain(byte),
        }
    }

    fn in_row_start(self, byte: u8) -> RowSoFar
        requires { is_too_long (so_far self) ≡ false }
        ensures { so_far result ≡ stepped (start_record default_config byte) (so_far self) }
    {
        if byte == b'\r' || byte == b'\n' {
            self.at(Inside::RowStart)
        } else {
            self.in_field_start(byte)
        }
    }

    fn in_field_start(self, byte: u8) -> RowSoFar
        requires { is_too_long (so_far self) ≡ false }
        ensures { so_far result ≡ stepped (start_field default_config byte) (so_far self) }
    {
        if byte == b'"' {
            self.at(Inside::Quoted)
        } else {
            self.in_plain(byte)
        }
    }

    fn in_plain(self, byte: u8) -> RowSoFar
        requires { is_too_long (so_far self) ≡ false }
        ensures { so_far result ≡ stepped (in_field default_config byte) (so_far self) }
    {
        if byte == b',' {
            self.with_field()
        } else if byte == b'\r' {
            self.ended(Inside::ReturnEnd)
        } else if byte == b'\n' {
            self.ended(Inside::RowStart)
        } else {
            self.longer(Inside::Plain)
        }
    }

    // ---- what a byte does

    // The byte isn't part of a field.
    fn at(self, inside: Inside) -> RowSoFar
        ensures { so_far result ≡ stepped (state_at inside, act.Skip) (so_far self) }
    {
        RowSoFar { inside, ..self }
    }

    // The byte is part of the field.
    fn longer(self, inside: Inside) -> RowSoFar
        requires { is_too_long (so_far self) ≡ false }
        ensures { so_far result ≡ stepped (state_at inside, act.Copy) (so_far self) }
    {
        RowSoFar {
            inside,
            bytes: self.bytes + 1,
            ..self
        }
    }

    // The byte ends the field.
    fn with_field(self) -> RowSoFar
        requires { is_too_long (so_far self) ≡ false }
        ensures { so_far result ≡ stepped (st.StartField, act.EndField) (so_far self) }
    {
        RowSoFar {
            inside: Inside::FieldStart,
            fields: self.fields + 1,
            bytes: 0,
            ..self
        }
    }

    // The byte ends the row.
    fn ended(self, inside: Inside) -> RowSoFar
        ensures { so_far result ≡ stepped (state_at inside, act.EndRecord) (so_far self) }
    {
        RowSoFar {
            inside,
            fields: 0,
            bytes: 0,
            ..self
        }
    }
}

// How many bytes of a byte order mark a text has after one more byte.
fn mark_after(mark: u8, byte: u8) -> u8
    ensures { result ≡ mark_after mark byte }
{
    if mark == 0 && byte == 0xEF {
        1
    } else if mark == 1 && byte == 0xBB {
        2
    } else {
        3
    }
}
