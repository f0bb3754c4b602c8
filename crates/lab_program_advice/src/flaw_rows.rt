//! For a person at a terminal: the record and version of the row of a copy at which a check found a
//! flaw.

use std::fs::{self, File};
use std::io::{self, Read, Write};

/// The path at which this process finds its standard input.
const INPUT: &str = "/dev/stdin";

/// How many bytes of a row's front are kept at most: its kind, its laboratory and two numbers have
/// fewer.
const FRONT: usize = 64;

// Finds a row of CSV, and keeps its first bytes. An empty line isn't a row, and a line's end within
// quotes doesn't end a row.
#[derive(Drop)]
struct RowSearch {
    wanted: u64,
    row: u64,
    is_quoted: bool,
    is_empty: bool,
    front: [u8; FRONT],
    kept: usize,
}

impl RowSearch {
    fn new(wanted: u64) -> RowSearch {
        RowSearch {
            wanted,
            row: 1,
            is_quoted: false,
            is_empty: true,
            front: [0; FRONT],
            kept: 0,
        }
    }

    // Takes the next byte. Returns whether the wanted row is complete.
    fn take(&mut self, byte: u8) -> bool {
        if matches!(byte, b'\n' | b'\r') && !self.is_quoted {
            return self.end();
        }
        if byte == b'"' {
            self.is_quoted = !self.is_quoted;
        }
        self.is_empty = false;
        if self.kept < FRONT {
            self.front[self.kept] = byte;
            self.kept += 1;
        }
        false
    }

    // Handles the end of a line.
    fn end(&mut self) -> bool {
        if self.is_empty {
            return false;
        }
        if self.row == self.wanted {
            return true;
        }
        self.row = self.row.saturating_add(1);
        self.is_empty = true;
        self.kept = 0;
        false
    }
}

// What a row of a copy belongs to: its record, and its version if it belongs to one.
#[derive(Clone, Copy, Debug, PartialEq, Eq)]
struct RowPlace {
    kind: &'static str,
    record: u32,
    version: Option<u32>,
}

// What a row's first fields say about its place.
fn place_in(front: &str) -> Option<RowPlace> {
    let mut fields = front.split(',');
    let (kind, is_of_version) = match fields.next()?.trim_matches('"') {
        "record" => ("the row", false),
        "version" => ("the row", true),
        "entry" => ("an entry", true),
        "signature" => ("a signature", true),
        _ => return None,
    };
    fields.next()?;
    let record = fields.next()?.trim_matches('"').parse::<u32>().ok()?;
    let version = fields.next()?.trim_matches('"').parse::<u32>().ok()?;
    Some(RowPlace {
        kind,
        record,
        version: is_of_version.then_some(version),
    })
}

// The place of a row of standard input, if standard input is a file, which is read once more from
// its beginning.
fn place_of(rt: &HostRuntime, row: u64) -> Option<RowPlace> {
    if !fs::metadata(rt, INPUT).ok()?.is_file() {
        return None;
    }
    let mut file = File::open(rt, INPUT).ok()?;
    let mut search = RowSearch::new(row);
    let mut buffer = [0u8; 8192];
    for _ in 0..u64::MAX {
        let read = file.read(&mut buffer).ok()?;
        if read == 0 {
            return None;
        }
        for byte in &buffer[..read] {
            if search.take(*byte) {
                let front = search.front.get(..search.kept)?;
                return place_in(str::from_utf8(front).ok()?);
            }
        }
    }
    None
}

// The text for the word of a flaw at a row.
fn flaw_said(word: &str) -> &'static str {
    match word {
        "digest" => "its digest isn't that of what it stands for",
        "seal" => "its seal isn't that of the signature",
        "order" => "it may not follow the rows before it",
        "one_person" => "its signatures aren't those of its state, or of persons who may sign",
        _ => "no copy has such a row",
    }
}

/// Writes what is wrong in a copy with a flaw, and where.
pub(crate) fn write_of_flaw<W: Write>(
    rt: &HostRuntime,
    errors: &mut W,
    word: &str,
    row: Option<u64>,
) -> io::Result<()> {
    let Some(row) = row else {
        return writeln!(
            errors,
            "The copy has no end row: it was cut off, or standard input is empty."
        );
    };
    write!(errors, "Row {row}")?;
    if let Some(place) = place_of(rt, row) {
        let (kind, record) = (place.kind, place.record);
        write!(errors, " is {kind} of record {record}")?;
        if let Some(version) = place.version {
            write!(errors, ", version {version}")?;
        }
    }
    let said = flaw_said(word);
    writeln!(errors, ": {said} (docs/COPIES.md, 'What is checked').")
}
