//! Whether a line may stand at its place, as far as the line and one other line decide that.
ghost use Rattle.std.specs.Prelude.{◌≡◌, ◌+◌, ◌<◌, ◌^◌, SomeIff};
ghost use Rattle.lab_copy_rows.specs.Copies.{lab_of, was_asked, is_first_version, are_same_counts};
ghost use Rattle.lab_copy.specs.Places.{count_of, counts_with, is_first_line};

use lab_copy_rows::{CopyLine, Counts, LabCode, Line, Ordinal, RecordLine, VersionLine};

/// The laboratory of a line.
pub fn lab_of(line: &Line) -> &LabCode
    ensures { result.now ≡ lab_of line.now }
{
    match line {
        Line::Copy(line) => &line.lab,
        Line::Record(line) => &line.lab,
        Line::Version(line) => &line.lab,
        Line::Entry(line) => &line.lab,
        Line::Signature(line) => &line.parts.lab,
        Line::End(line) => &line.lab,
    }
}

/// Whether the line may be the first.
pub fn is_first_line(line: &Line) -> bool
    ensures { result ≡ is_first_line line.now }
{
    match line {
        Line::Copy(line) => line.from.get() <= line.to.get(),
        Line::Record(_) | Line::Version(_) | Line::Entry(_) | Line::Signature(_) | Line::End(_) =>
            false,
    }
}

/// Whether the record was asked for.
pub fn was_asked(copy: &CopyLine, line: &RecordLine) -> bool
    ensures { result ≡ was_asked copy.now line.now }
{
    let number = line.record_number.get();
    copy.from.get() <= number && number <= copy.to.get()
}

/// Whether the version is the first of the record.
pub fn is_first_version(line: &VersionLine, about: &RecordLine) -> bool
    ensures { result ≡ is_first_version line.now about.now }
{
    line.record_number == about.record_number && line.number == Ordinal::FIRST
}

/// Whether the counts are those that the end row states.
pub fn are_same_counts(counts: &Counts, told: &Counts) -> bool
    ensures { result ≡ are_same_counts counts.now told.now }
{
    counts.records == told.records
        && counts.versions == told.versions
        && counts.entries == told.entries
        && counts.signatures == told.signatures
}

/// Returns the counts with the line added. `None` if there are more lines of its kind than any copy
/// has.
pub fn counts_with(line: &Line, counts: Counts) -> Option<Counts>
    ensures { SomeIff result (count_of line.now counts + 1 < 2 ^ 64)
        (counts_with line.now counts) }
{
    match line {
        Line::Record(_) => Some(Counts {
            records: counts.records.checked_add(1)?,
            ..counts
        }),
        Line::Version(_) => Some(Counts {
            versions: counts.versions.checked_add(1)?,
            ..counts
        }),
        Line::Entry(_) => Some(Counts {
            entries: counts.entries.checked_add(1)?,
            ..counts
        }),
        Line::Signature(_) => Some(Counts {
            signatures: counts.signatures.checked_add(1)?,
            ..counts
        }),
        Line::Copy(_) | Line::End(_) => Some(counts),
    }
}
