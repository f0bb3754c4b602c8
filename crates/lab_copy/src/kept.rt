//! What is kept of the lines so far, and how the next line is checked with it.
ghost use Rattle.std.specs.Prelude.{◌≡◌, ◌+◌, List, None, Some, IfErr, IfOk, IsSome, IsTrue, OnErr, OnOk, length, option_map};
ghost use Rattle.std.specs.Str.{bytes_eq};
ghost use Rattle.lab_seal_versions.specs.Origins.{AmendsUnlessFirst};
ghost use Rattle.lab_copy_rows.specs.Copies.{is_first_version, is_some_and};
ghost use Rattle.lab_copy_rows.specs.declared.lines.Line.{Line};
ghost use Rattle.lab_copy.specs.Faults.{IsAnswer};
ghost use Rattle.lab_copy_lines.specs.Lines.{IsReasoned};
ghost use Rattle.lab_copy.specs.Current.{amendment_behind, begun, has_numbers, with_entry, with_signature};
ghost use Rattle.lab_copy.specs.Kept.{IsAt, IsEndFault, IsTaken, edition_by, flaw_of_version_kept, kept_none, verdict_kept};
ghost use Rattle.lab_copy.specs.Private.Kept.{IsKeepFault, MayBegin, flaw_kept, flaw_of_signature_kept, has_kept_numbers, is_in_place_kept, is_kept_made, is_next_record, is_text_made, is_version_behind, kept_with, may_come, with_parts};
ghost use Rattle.lab_copy.specs.declared.current.CurrentVersion.{CurrentVersion};
ghost use Rattle.lab_copy_lines.specs.Kinds.{is_end_kind};

use crate::{
    CopyFault, CurrentVersion, are_same_counts, begin, counts_with, enter, is_first_line,
    is_first_version, lab_of, sign, was_asked,
};
use lab_copy_lines::LineKind;
use lab_copy_rows::{
    CopyLine, Counts, Digest, Edition, EntryLine, Flaw, Line, Ordinal, OutOfMemory, RecordLine,
    SignatureLine, VersionLine,
};
use lab_seal_versions::seal;
use std::alloc::Global;

/// What is kept of the lines so far: the copy row, the row of the last record, the current version,
/// the kind of the last line, and the number of lines of each kind.
pub struct Kept {
    copy: Option<CopyLine>,
    about: Option<RecordLine>,
    version: Option<CurrentVersion>,
    last: Option<LineKind>,
    counts: Counts,
}

// `drop` is written out, so that a caller doesn't prove again how each part is dropped.
impl Drop for Kept {
    fn drop(self) {
        let Kept {
            copy: _,
            about: _,
            version: _,
            last: _,
            counts: _,
        } = self;
    }
}

impl Kept {
    /// What is kept before the first line: nothing.
    pub fn none() -> Kept
        ensures { result ≡ kept_none }
    {
        Kept {
            copy: None,
            about: None,
            version: None,
            last: None,
            counts: Counts {
                records: 0,
                versions: 0,
                entries: 0,
                signatures: 0,
            },
        }
    }

    /// The edition of the copy.
    pub fn edition(&self) -> Edition
        ensures { result ≡ edition_by self.now.copy }
    {
        match &self.copy {
            Some(copy) => copy.edition,
            None => Edition::One,
        }
    }

    /// Checks the line in the row, and keeps the parts with which the next lines are compared.
    ///
    /// # Errors
    /// The first flaw of the copy, too many lines of one kind, or memory ran out.
    pub fn take(&mut self, alloc: Global, row: u64, line: Line) -> Result<(), CopyFault>
        requires { IsReasoned line }
        ensures { (lines : List Line) → row ≡ length lines + 2 → IsAt self.old lines
            → IsTaken lines line self.new result }
    {
        if !self.is_in_place(&line) {
            return Err(CopyFault::Flawed(Flaw::Order(row)));
        }
        match self.check(alloc, row, &line) {
            Ok(None) => self.keep(alloc, row, line),
            Ok(Some(flaw)) => Err(CopyFault::Flawed(flaw)),
            Err(fault) => Err(CopyFault::Memory(fault)),
        }
    }

    /// Checks what is kept at the end of the input, and returns the counts.
    ///
    /// # Errors
    /// The first flaw of the copy, or memory ran out.
    pub fn finish(&self, alloc: Global) -> Result<Counts, CopyFault>
        ensures value { IsAnswer (verdict_kept self.now) result }
        ensures fault { IfErr result (IsEndFault self.now) }
    {
        if self.has_ended() {
            return Ok(self.counts);
        }
        match self.check_version(alloc) {
            Ok(None) => Err(CopyFault::Flawed(Flaw::NoEnd)),
            Ok(Some(flaw)) => Err(CopyFault::Flawed(flaw)),
            Err(fault) => Err(CopyFault::Memory(fault)),
        }
    }

    // ---- order

    // Whether the end row came.
    fn has_ended(&self) -> bool
        ensures { result ≡ is_some_and is_end_kind self.now.last }
    {
        match self.last {
            Some(last) => last.is_end(),
            None => false,
        }
    }

    // Whether the line may stand at its place.
    fn is_in_place(&self, line: &Line) -> bool
        ensures { result ≡ is_in_place_kept self.now line.now }
    {
        match &self.copy {
            Some(copy) => {
                *lab_of(line) == copy.lab && self.may_come(line) && self.has_numbers(copy, line)
            }
            None => is_first_line(line),
        }
    }

    // Whether the line is of a kind that may come after the last one.
    fn may_come(&self, line: &Line) -> bool
        ensures { result ≡ may_come self.now.last line.now }
    {
        match self.last {
            Some(last) => LineKind::of(line).may_come_after(last),
            None => false,
        }
    }

    // Whether the line has the numbers that its place wants.
    fn has_numbers(&self, copy: &CopyLine, line: &Line) -> bool
        ensures { result ≡ has_kept_numbers copy.now self.now line.now }
    {
        match line {
            Line::Copy(_) => false,
            Line::Record(line) => was_asked(copy, line) && self.is_next_record(line),
            Line::Version(line) => self.is_next_version(line),
            Line::Entry(line) => self.is_of_version(line.record_number, line.version),
            Line::Signature(line) => self.is_of_version(line.record_number, line.version),
            Line::End(line) => are_same_counts(&self.counts, &line.counts),
        }
    }

    // Whether the numbers are those of the current version.
    fn is_of_version(&self, record_number: Ordinal, number: Ordinal) -> bool
        ensures { result ≡ is_some_and (has_numbers record_number number) self.now.version }
    {
        match &self.version {
            Some(version) => version.has_numbers(record_number, number),
            None => false,
        }
    }

    fn is_next_record(&self, line: &RecordLine) -> bool
        ensures { result ≡ is_next_record self.now line.now }
    {
        match &self.about {
            Some(earlier) => earlier.record_number.get() < line.record_number.get(),
            None => true,
        }
    }

    // Whether the version is the first after the row of its record, or the next after the current
    // version.
    fn is_next_version(&self, line: &VersionLine) -> bool
        ensures { result ≡ is_version_behind self.now.version self.now line.now }
    {
        match &self.version {
            Some(version) => version.is_followed_by(line),
            None => self.is_first_version(line),
        }
    }

    fn is_first_version(&self, line: &VersionLine) -> bool
        ensures { result ≡ is_some_and (is_first_version line.now) self.now.about }
    {
        match &self.about {
            Some(about) => is_first_version(line, about),
            None => false,
        }
    }

    // ---- flaws

    // The flaw that a line shows, if it is in its place.
    fn check(&self, alloc: Global, row: u64, line: &Line) -> Result<Option<Flaw>, OutOfMemory>
        ensures value { IfOk result (λ shown. shown ≡ flaw_kept row self.now line.now) }
        ensures memory { OnErr result (IsTrue (is_text_made self.now line.now)) }
    {
        match line {
            Line::Entry(_) => Ok(None),
            Line::Signature(line) => Ok(self.check_signature(row, line)),
            Line::Copy(_) | Line::Record(_) | Line::Version(_) | Line::End(_) => {
                self.check_version(alloc)
            }
        }
    }

    // The flaw of the current version, if there is one.
    fn check_version(&self, alloc: Global) -> Result<Option<Flaw>, OutOfMemory>
        ensures value { IfOk result (λ shown. shown ≡ flaw_of_version_kept self.now) }
        ensures memory { OnErr result (IsSome self.now.version) }
    {
        match &self.version {
            Some(version) => version.check(alloc),
            None => Ok(None),
        }
    }

    fn check_signature(&self, row: u64, line: &SignatureLine) -> Option<Flaw>
        ensures { result ≡ flaw_of_signature_kept row self.now.version line.now }
    {
        if !self.has_digest(&line.parts.version) {
            return Some(Flaw::Digest(row));
        }
        if seal(&line.parts).bytes() != line.seal.bytes() {
            return Some(Flaw::Seal(row));
        }
        None
    }

    // Whether the digest is that in the row of the current version.
    fn has_digest(&self, digest: &Digest) -> bool
        ensures { result ≡ is_some_and (λ (current : CurrentVersion). bytes_eq current.digest digest.now)
            self.now.version }
    {
        match &self.version {
            Some(version) => version.digest().bytes() == digest.bytes(),
            None => false,
        }
    }

    // ---- what is kept of a line

    // Keeps the parts of the line with which the next lines are compared.
    fn keep(&mut self, alloc: Global, row: u64, line: Line) -> Result<(), CopyFault>
        requires { MayBegin self.old.version line }
        ensures kept { OnOk result (self.new ≡ kept_with row self.old line) }
        ensures fault { IfErr result (IsKeepFault self.old line) }
    {
        let Some(counts) = counts_with(&line, self.counts) else {
            return Err(CopyFault::Read);
        };
        self.counts = counts;
        self.last = Some(LineKind::of(&line));
        self.keep_parts(alloc, row, line)?;
        Ok(())
    }

    // Keeps the parts that belong to this kind of line.
    fn keep_parts(&mut self, alloc: Global, row: u64, line: Line) -> Result<(), OutOfMemory>
        requires { MayBegin self.old.version line }
        ensures kept { OnOk result (self.new ≡ with_parts row self.old line) }
        ensures memory { OnErr result (IsTrue
            (is_kept_made self.old.about self.old.version line)) }
    {
        match line {
            Line::Copy(line) => {
                self.keep_copy(line);
                Ok(())
            }
            Line::Record(line) => {
                self.keep_record(line);
                Ok(())
            }
            Line::Version(line) => self.keep_version(alloc, row, line),
            Line::Entry(line) => self.keep_entry(alloc, line),
            Line::Signature(line) => self.keep_signature(line),
            Line::End(_) => {
                self.version = None;
                Ok(())
            }
        }
    }

    fn keep_copy(&mut self, line: CopyLine)
        ensures { self.new ≡ record self.old { copy = Some line; version = None } }
    {
        self.copy = Some(line);
        self.version = None;
    }

    fn keep_record(&mut self, line: RecordLine)
        ensures { self.new ≡ record self.old { about = Some line; version = None } }
    {
        self.about = Some(line);
        self.version = None;
    }

    fn keep_version(
        &mut self,
        alloc: Global,
        row: u64,
        line: VersionLine,
    ) -> Result<(), OutOfMemory>
        requires { AmendsUnlessFirst line.number (amendment_behind self.old.version line) }
        ensures kept { OnOk result (self.new ≡ record self.old {
          version = option_map
              (λ about. begun row about self.old.version line) self.old.about;
        }) }
        ensures memory { OnErr result (IsSome self.old.about) }
    {
        self.version = begin(alloc, row, &self.about, &self.version, line)?;
        Ok(())
    }

    fn keep_entry(&mut self, alloc: Global, line: EntryLine) -> Result<(), OutOfMemory>
        ensures kept { OnOk result (self.new ≡ record self.old {
          version = option_map (with_entry line.row) self.old.version;
        }) }
        ensures memory { OnErr result (IsSome self.old.version) }
    {
        enter(&mut self.version, alloc, line.row)
    }

    fn keep_signature(&mut self, line: SignatureLine) -> Result<(), OutOfMemory>
        ensures kept { OnOk result (self.new ≡ record self.old {
          version = option_map
              (with_signature line.parts.person line.parts.meaning) self.old.version;
        }) }
        ensures memory { OnErr result (IsSome self.old.version) }
    {
        let parts = line.parts;
        sign(&mut self.version, parts.person, parts.meaning)
    }
}
