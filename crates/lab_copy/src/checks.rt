//! The check of a copy. It keeps only the current version.
ghost use Rattle.std.specs.Prelude.{◌≡◌, ℕ, ◌+◌, ◌≤◌, true, List, Option, IfOk, IfErr, OnOk, IfSome, length, option_map};
ghost use Rattle.csv.specs.Reading.{ReadRecord, Ready, default_config, reader_config, reader_state, reader_trim, source_of, strip_bom, took_first};
ghost use Rattle.csv.specs.Records.{fields_of};
ghost use Rattle.csv.specs.declared.parser.State.TheVariants as st;
ghost use Rattle.csv.specs.declared.reader.Trim.TheVariants as trim;
ghost use Rattle.lab_copy_rows.specs.Copies.{verdict};
ghost use Rattle.lab_copy.specs.Faults.{IsAnswer};
ghost use Rattle.lab_copy.specs.Private.Faults.{IsNoFlaw};
ghost use Rattle.lab_copy.specs.Checks.{OfVerdict, most_asks, most_rows, csv_rows_of};
ghost use Rattle.lab_copy.specs.Private.Checks.{fault_at};
ghost use Rattle.lab_copy.specs.Kept.{kept_none};
ghost use Rattle.lab_copy.specs.Private.Left.{AnswersRest, AnswersSome, AnswersSomeRest, AreRows};

use crate::CopyFault;
use crate::asks::{AskedReader, Asking, MOST_ASKS};
use crate::fronts::RowSoFar;
use crate::kept::Kept;
use csv::{ByteRecord, ErrorKind, Reader, ReaderBuilder};
use lab_copy_lines::{RowFault, is_header, read_line};
use lab_copy_rows::{Counts, Flaw, OutOfMemory};
use lab_forms_streams::ByteSource;
use std::alloc::Global;
use std::io::Read;
use std::marker::{Brand, PhantomData};

/// The most rows that are read. No copy has as many.
const MOST_ROWS: u64 = 1_000_000_000_000;

/// Reads a copy as CSV to its end, and returns the number of rows of each kind if the copy is
/// sound, else the first flaw. It recomputes every digest and every seal. It doesn't read a row
/// further once the row has more fields, or a longer field, than a valid row.
///
/// # Errors
/// The first flaw of the copy; the reader failed, was asked 1,000,000,000,000,000 times or returned
/// more than 1,000,000,000,000 rows; or memory ran out.
pub fn check_copy<R: ByteSource>(alloc: Global, reader: &mut R) -> Result<Counts, CopyFault>
    ensures verdict { OfVerdict (R.remaining reader.old) (λ found. IsAnswer found result) }
    ensures rows { IfSome (R.remaining reader.old) (λ bytes.
        OnOk result (length (csv_rows_of bytes) ≤ most_rows)) }
    ensures asks { R.asks reader.new ≤ R.asks reader.old + most_asks }
{
    let (answer, _) = check_asking::<Brand, R>(alloc, reader);
    answer
}

// Does the same for a source whose name and count are in the type. Returns the source too.
fn check_asking<'a, A: Asking, R: ByteSource>(
    alloc: Global,
    source: &'a mut R,
) -> (Result<Counts, CopyFault>, &'a mut R)
    requires name { source.ghost_name ≡ A.name }
    requires most { R.asks source.old + most_asks ≤ A.most }
    ensures verdict { OfVerdict (R.remaining source.old) (λ found. IsAnswer found result.0) }
    ensures rows { IfSome (R.remaining source.old) (λ bytes.
        OnOk result.0 (length (csv_rows_of bytes) ≤ most_rows)) }
    ensures same_reference { result.1.ghost_name ≡ source.entry.ghost_name }
    ensures asks { R.asks result.1.now ≤ A.most }
{
    let row = RowSoFar::of_text();
    let asked = AskedReader::<A, R> {
        source,
        asks_left: MOST_ASKS,
        row,
        asking: PhantomData,
    };
    let mut rows = copy_reader(alloc, asked);
    let answer = check_all(alloc, &mut rows);
    (answer, rows.into_inner().into_source())
}

// Checks the rows of a reader from its start.
fn check_all<R: Read>(alloc: Global, rows: &mut Reader<R>) -> Result<Counts, CopyFault>
    requires config { reader_config rows.old ≡ default_config }
    requires trim { reader_trim rows.old ≡ trim.None }
    requires ready { Ready rows.old }
    requires state { reader_state rows.old ≡ st.StartRecord }
    ensures verdict { (known : Option (List ℕ))
        → source_of R.remaining rows.old ≡ option_map strip_bom known
        → IfSome known (λ bytes. IsAnswer (verdict (csv_rows_of bytes)) result) }
    ensures some { AnswersSome result }
    ensures rows { (known : Option (List ℕ))
        → source_of R.remaining rows.old ≡ option_map strip_bom known
        → IfSome known (λ bytes. OnOk result (length (csv_rows_of bytes) ≤ most_rows)) }
{
    let mut row = ByteRecord::new(alloc);
    if !read_row(rows, &mut row)? {
        return Err(CopyFault::Flawed(Flaw::NoEnd));
    }
    if !is_header(&row) {
        return Err(CopyFault::Flawed(Flaw::BadRow(1)));
    }
    let mut kept = Kept::none();
    let answer = check_rows(alloc, rows, &mut row, &mut kept);
    drop(kept);
    answer
}

// A reader of rows that doesn't treat the first row as a header, and allows any number of fields.
fn copy_reader<R: Read>(alloc: Global, reader: R) -> Reader<R>
    ensures config { reader_config result ≡ default_config }
    ensures trim { reader_trim result ≡ trim.None }
    ensures ready { Ready result }
    ensures state { reader_state result ≡ st.StartRecord }
    ensures source { source_of R.remaining result ≡ option_map strip_bom (R.remaining reader) }
{
    ReaderBuilder::new()
        .has_headers(false)
        .flexible(true)
        .from_reader(alloc, reader)
}

// Checks the rows after the header.
fn check_rows<R: Read>(
    alloc: Global,
    rows: &mut Reader<R>,
    row: &mut ByteRecord,
    kept: &mut Kept,
) -> Result<Counts, CopyFault>
    requires config { reader_config rows.old ≡ default_config }
    requires trim { reader_trim rows.old ≡ trim.None }
    requires ready { Ready rows.old }
    requires none { kept.old ≡ kept_none }
    ensures verdict { AnswersRest (reader_state rows.old) (source_of R.remaining rows.old) result }
    ensures some { AnswersSomeRest result }
    ensures rows { (total : ℕ)
        → AreRows total 2 (reader_state rows.old) (source_of R.remaining rows.old)
        → OnOk result (total ≤ most_rows) }
{
    for number in 2..MOST_ROWS + 2 {
        if !read_row(rows, row)? {
            return kept.finish(alloc);
        }
        match read_line(alloc, kept.edition(), row) {
            Ok(line) => kept.take(alloc, number, line)?,
            Err(fault) => return Err(fault_at(number, fault)),
        }
    }
    Err(CopyFault::Read)
}

// Reads the next row, if there is one.
fn read_row<R: Read>(rows: &mut Reader<R>, row: &mut ByteRecord) -> Result<bool, CopyFault>
    ensures reads { IfOk result (λ found. (reader_trim rows.old ≡ trim.None) → Ready rows.old
        → ReadRecord R.remaining rows.old rows.new found (fields_of row.new)) }
    ensures ready { (reader_trim rows.old ≡ trim.None) → OnOk result (took_first rows.new ≡ true) }
    ensures fault { IfErr result IsNoFlaw }
{
    match rows.read_byte_record(row) {
        Ok(found) => Ok(found),
        Err(error) => match error.kind() {
            ErrorKind::OutOfMemory => Err(CopyFault::Memory(OutOfMemory)),
            _ => Err(CopyFault::Read),
        },
    }
}

// The fault of the check for a fault of a row.
fn fault_at(row: u64, fault: RowFault) -> CopyFault
    ensures { result ≡ fault_at row fault }
{
    match fault {
        RowFault::Refused(_) => CopyFault::Flawed(Flaw::BadRow(row)),
        RowFault::Memory => CopyFault::Memory(OutOfMemory),
    }
}
