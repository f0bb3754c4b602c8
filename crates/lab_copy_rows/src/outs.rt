//! A copy that is being written: its text is made row by row, and sent.
ghost use Rattle.std.specs.Prelude.{◌≡◌, ◌<◌, ◌≤◌, [], None, Some, Ok, Err, OnOk, IfOk, IfErr, IfSome};
ghost use Rattle.std.specs.Io.KnownBytes.{Keeps};
ghost use Rattle.lab_copy_rows.specs.Csv.{csv_row, csv_text};
ghost use Rattle.lab_copy_rows.specs.Rows.{fields_in, end_row};
ghost use Rattle.lab_copy_rows.specs.Outs.{Sends, counted, counted_all, no_counts, start_text};

use crate::sending::send_rows;
use crate::{CopyLine, CopyOutFault, CopyRow, Counts, EndLine, LabCode};
use std::alloc::Global;
use std::io::Write;

/// The number of rows that are made into bytes before they are sent, in one write if the writer
/// takes all bytes.
const ROWS_AT_ONCE: usize = 32;

/// Writes rows as CSV (RFC 4180), with a line feed after each. Stops at the first write that fails
/// or takes no byte.
///
/// # Errors
/// The writer failed, or memory ran out.
pub fn write_copy<W: Write>(
    alloc: Global,
    writer: &mut W,
    rows: &[CopyRow],
) -> Result<(), CopyOutFault>
    ensures text { Sends (W.contents writer.old) (W.contents writer.new)
        (csv_text rows.now) result }
    ensures nothing { rows.now ≡ [] → result ≡ Ok tt }
{
    let mut sent = 0;
    while sent < rows.len() {
        let next = next_stop(sent, rows.len());
        send_rows(alloc, writer, &rows[sent..next])?;
        sent = next;
    }
    Ok(())
}

// Where the rows end that are sent together next.
fn next_stop(sent: usize, len: usize) -> usize
    requires { sent < len }
    ensures further { sent < result }
    ensures within { result ≤ len }
{
    if len - sent > ROWS_AT_ONCE {
        sent + ROWS_AT_ONCE
    } else {
        len
    }
}

const NO_ROWS: Counts = Counts {
    records: 0,
    versions: 0,
    entries: 0,
    signatures: 0,
};

/// A copy that is being written. Each call must get the writer that the first call got. After a
/// fault, every further call returns that fault and writes nothing.
#[derive(Debug)]
pub struct CopyOut {
    lab: LabCode,
    counts: Counts,
    fault: Option<CopyOutFault>,
}

// `drop` is written out, so that a caller doesn't prove again how each part is dropped.
impl Drop for CopyOut {
    fn drop(self) {
        let CopyOut {
            lab: _,
            counts: _,
            fault: _,
        } = self;
    }
}

impl CopyOut {
    /// Writes the header and the copy row.
    ///
    /// # Errors
    /// The writer failed, or memory ran out.
    #[tactic(auto, using(crate::proofs::SendLemmas::none_went))]
    pub fn start<W: Write>(
        alloc: Global,
        writer: &mut W,
        line: &CopyLine,
    ) -> Result<CopyOut, CopyOutFault>
        ensures text { Sends (W.contents writer.old) (W.contents writer.new)
            (start_text line.now) result }
        ensures fresh { IfOk result (λ out.
            out ≡ record { lab = line.now.lab; counts = no_counts; fault = None }) }
    {
        let lab = line.lab.copy()?;
        let header = CopyRow::header(alloc)?;
        let row = CopyRow::copy(alloc, line)?;
        write_copy(alloc, writer, &[header, row])?;
        Ok(CopyOut {
            lab,
            counts: NO_ROWS,
            fault: None,
        })
    }

    /// Writes rows, and counts them.
    ///
    /// # Errors
    /// The writer failed, or memory ran out.
    #[tactic(auto, using(crate::proofs::SendLemmas::none_went))]
    pub fn give<W: Write>(
        &mut self,
        alloc: Global,
        writer: &mut W,
        rows: &[CopyRow],
    ) -> Result<(), CopyOutFault>
        ensures text { Sends (W.contents writer.old) (W.contents writer.new)
            (csv_text rows.now) result }
        ensures counts { OnOk result
            (self.new ≡ record self.old { counts = counted_all self.old.counts rows.now }) }
        ensures fault { IfErr result (λ fault. self.new ≡ record self.old { fault = Some fault }) }
        ensures stopped { IfSome self.old.fault (λ fault. (result ≡ Err fault)
            × Keeps (W.contents writer.old) (W.contents writer.new)) }
    {
        if let Some(fault) = self.fault {
            return Err(fault);
        }
        if let Err(fault) = write_copy(alloc, writer, rows) {
            self.fault = Some(fault);
            return Err(fault);
        }
        self.count_all(rows);
        Ok(())
    }

    /// Writes the end row, and returns the number of rows of each kind that were written.
    ///
    /// # Errors
    /// The writer failed, or memory ran out.
    #[tactic(auto, using(crate::proofs::SendLemmas::none_went, crate::proofs::SendLemmas::one_row))]
    pub fn finish<W: Write>(self, alloc: Global, writer: &mut W) -> Result<Counts, CopyOutFault>
        ensures text { Sends (W.contents writer.old) (W.contents writer.new)
            (csv_row (fields_in (end_row (record { lab = self.lab; counts = self.counts }))))
            result }
        ensures counts { IfOk result (λ counts. counts ≡ self.counts) }
        ensures stopped { IfSome self.fault (λ fault. (result ≡ Err fault)
            × Keeps (W.contents writer.old) (W.contents writer.new)) }
    {
        let CopyOut { lab, counts, fault } = self;
        if let Some(fault) = fault {
            return Err(fault);
        }
        let row = CopyRow::end(alloc, &EndLine { lab, counts })?;
        write_copy(alloc, writer, &[row])?;
        Ok(counts)
    }

    // Counts rows that were written.
    fn count_all(&mut self, rows: &[CopyRow])
        ensures { self.new ≡ record self.old { counts = counted_all self.old.counts rows.now } }
    {
        for row in rows {
            self.count(row);
        }
    }

    // Counts a row that was written.
    fn count(&mut self, row: &CopyRow)
        ensures { self.new ≡ record self.old { counts = counted self.old.counts row.now } }
    {
        let counts = &mut self.counts;
        match row.kind() {
            "record" => counts.records = counts.records.saturating_add(1),
            "version" => counts.versions = counts.versions.saturating_add(1),
            "entry" => counts.entries = counts.entries.saturating_add(1),
            "signature" => counts.signatures = counts.signatures.saturating_add(1),
            _ => {}
        }
    }
}
