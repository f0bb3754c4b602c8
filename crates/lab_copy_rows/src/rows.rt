//! Rows of a copy. Each kind of row has a function that makes it.
ghost use Rattle.std.specs.Prelude.{◌≡◌, IfOk, map, string_bytes};
ghost use Rattle.lab_copy_rows.specs.Rows.{fields_in, kind_in, header_row, copy_row, record_row, version_row, entry_row, signature_row, end_row};

use crate::texts::{
    approval_name, digits_text, edition_text, format_key, meaning_text, moment_text, optional_text,
    state_text,
};
use crate::{CopyLine, EndLine, EntryLine, RecordLine, SignatureLine, VersionLine};
use itoa::Buffer;
use lab_seal_versions::OutOfMemory;
use std::alloc::Global;
use std::marker::Model;

/// A row of a copy: thirteen fields. Each field is a text.
///
/// A contract sees it as the list of its fields.
#[derive(Debug)]
pub struct CopyRow {
    fields: Vec<String>,
}

// `drop` is written out, so that a caller doesn't prove again how each part is dropped.
impl Drop for CopyRow {
    fn drop(self) {
        let CopyRow { fields: _ } = self;
    }
}

impl Model for CopyRow {
    ghost use Rattle.std.specs.Prelude.{List, ℕ, map, string_bytes};

    ghost Value = { List (List ℕ) };

    ghost view = { λ row. map string_bytes row.fields.items };
}

impl CopyRow {
    /// Makes the header: the names of the columns. Each function that makes a row fails only if
    /// memory runs out.
    ///
    /// # Errors
    /// Memory ran out.
    pub fn header(alloc: Global) -> Result<CopyRow, OutOfMemory>
        ensures { IfOk result (λ row. row ≡ fields_in header_row) }
    {
        CopyRow::of_fields(
            alloc,
            &[
                "kind", "lab", "record", "version", "key", "value", "unit", "person", "name",
                "moment", "reason", "digest", "seal",
            ],
        )
    }

    /// Makes the row after the header: which records were asked for, who asked, and when the copy
    /// was made.
    ///
    /// # Errors
    /// Memory ran out.
    pub fn copy(alloc: Global, line: &CopyLine) -> Result<CopyRow, OutOfMemory>
        ensures { IfOk result (λ row. row ≡ fields_in (copy_row line.now)) }
    {
        let (mut from, mut to) = (Buffer::new(), Buffer::new());
        let mut printed = [0; 20];
        CopyRow::of_fields(
            alloc,
            &[
                "copy",
                line.lab.as_str(),
                from.format(line.from.get()),
                to.format(line.to.get()),
                edition_text(&line.edition),
                "",
                "",
                optional_text(&line.person),
                line.name.as_str(),
                moment_text(line.moment, &mut printed),
                "",
                "",
                "",
            ],
        )
    }

    /// Makes the row with which a record begins.
    ///
    /// # Errors
    /// Memory ran out.
    pub fn record(alloc: Global, line: &RecordLine) -> Result<CopyRow, OutOfMemory>
        ensures { IfOk result (λ row. row ≡ fields_in (record_row line.now)) }
    {
        let (mut number, mut form_version) = (Buffer::new(), Buffer::new());
        CopyRow::of_fields(
            alloc,
            &[
                "record",
                line.lab.as_str(),
                number.format(line.record_number.get()),
                form_version.format(line.form_version.get()),
                line.form.as_str(),
                line.sample.as_str(),
                "",
                "",
                "",
                "",
                "",
                "",
                "",
            ],
        )
    }

    /// Makes the row with which a version begins.
    ///
    /// # Errors
    /// Memory ran out.
    pub fn version(alloc: Global, line: &VersionLine) -> Result<CopyRow, OutOfMemory>
        ensures { IfOk result (λ row. row ≡ fields_in (version_row line.now)) }
    {
        let (mut record_number, mut number) = (Buffer::new(), Buffer::new());
        let mut printed = [0; 20];
        let digest = line.digest.digits();
        CopyRow::of_fields(
            alloc,
            &[
                "version",
                line.lab.as_str(),
                record_number.format(line.record_number.get()),
                number.format(line.number.get()),
                format_key(&line.format),
                state_text(&line.state),
                "",
                line.opener.as_str(),
                approval_name(&line.format),
                moment_text(line.opened, &mut printed),
                optional_text(&line.reason),
                digits_text(&digest),
                "",
            ],
        )
    }

    /// Makes the row of a value that was entered.
    ///
    /// # Errors
    /// Memory ran out.
    pub fn entry(alloc: Global, line: &EntryLine) -> Result<CopyRow, OutOfMemory>
        ensures { IfOk result (λ row. row ≡ fields_in (entry_row line.now)) }
    {
        let (mut record_number, mut version) = (Buffer::new(), Buffer::new());
        let mut printed = [0; 20];
        CopyRow::of_fields(
            alloc,
            &[
                "entry",
                line.lab.as_str(),
                record_number.format(line.record_number.get()),
                version.format(line.version.get()),
                line.row.key.as_str(),
                line.row.value.as_str(),
                line.row.unit.as_str(),
                line.row.person.as_str(),
                "",
                moment_text(line.row.moment, &mut printed),
                optional_text(&line.row.reason),
                "",
                "",
            ],
        )
    }

    /// Makes the row of a signature.
    ///
    /// # Errors
    /// Memory ran out.
    pub fn signature(alloc: Global, line: &SignatureLine) -> Result<CopyRow, OutOfMemory>
        ensures { IfOk result (λ row. row ≡ fields_in (signature_row line.now)) }
    {
        let (mut record_number, mut version) = (Buffer::new(), Buffer::new());
        let mut printed = [0; 20];
        let digest = line.parts.version.digits();
        let seal = line.seal.digits();
        CopyRow::of_fields(
            alloc,
            &[
                "signature",
                line.parts.lab.as_str(),
                record_number.format(line.record_number.get()),
                version.format(line.version.get()),
                "",
                meaning_text(&line.parts.meaning),
                "",
                line.parts.person.as_str(),
                line.parts.name.as_str(),
                moment_text(line.parts.moment, &mut printed),
                line.parts.meaning.reason(),
                digits_text(&digest),
                digits_text(&seal),
            ],
        )
    }

    /// Makes the last row: the number of rows of each kind.
    ///
    /// # Errors
    /// Memory ran out.
    pub fn end(alloc: Global, line: &EndLine) -> Result<CopyRow, OutOfMemory>
        ensures { IfOk result (λ row. row ≡ fields_in (end_row line.now)) }
    {
        let (mut records, mut versions) = (Buffer::new(), Buffer::new());
        let (mut entries, mut signatures) = (Buffer::new(), Buffer::new());
        CopyRow::of_fields(
            alloc,
            &[
                "end",
                line.lab.as_str(),
                records.format(line.counts.records),
                versions.format(line.counts.versions),
                entries.format(line.counts.entries),
                signatures.format(line.counts.signatures),
                "",
                "",
                "",
                "",
                "",
                "",
                "",
            ],
        )
    }

    fn of_fields(alloc: Global, texts: &[&str]) -> Result<CopyRow, OutOfMemory>
        ensures { IfOk result (λ row. row ≡ map (λ text. text.now) texts.now) }
    {
        let mut fields = Vec::new(alloc);
        for text in texts {
            fields.push(String::from_str(alloc, text)?)?;
        }
        Ok(CopyRow { fields })
    }

    /// The fields in order.
    pub fn fields(&self) -> &[String]
        ensures { map string_bytes result.now ≡ self.now }
    {
        self.fields.as_slice()
    }

    /// The kind of the row: `kind` for the header, else `copy`, `record`, `version`, `entry`,
    /// `signature` or `end`.
    pub fn kind(&self) -> &str
        ensures { result.now ≡ kind_in self.now }
    {
        match self.fields.first() {
            Some(kind) => kind.as_str(),
            None => "",
        }
    }
}
