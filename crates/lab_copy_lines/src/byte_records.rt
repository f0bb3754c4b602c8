//! The columns of a row.
ghost use Rattle.std.specs.Prelude.{◌≡◌, option_map};
ghost use Rattle.csv.specs.Records.{fields_of};
ghost use Rattle.lab_copy_rows.specs.Copies.{is_header};
ghost use Rattle.lab_copy_rows.specs.Reading.{columns_of};
ghost use Rattle.lab_copy_lines.specs.Fields.{columns_in};
ghost use Rattle.lab_copy_lines.specs.Private.Lines.{field_in, has_header_names};

use crate::RowFields;
use csv::ByteRecord;

/// The number of columns of a row.
pub const COLUMN_COUNT: usize = 13;

/// The columns of a row, if it has thirteen fields.
pub(crate) fn row_fields(row: &ByteRecord) -> Option<RowFields<'_>>
    ensures { option_map columns_in result ≡ columns_of (fields_of row.now) }
{
    if row.len() != COLUMN_COUNT {
        return None;
    }
    Some(RowFields {
        kind: field(row, 0),
        lab: field(row, 1),
        record_number: field(row, 2),
        version: field(row, 3),
        key: field(row, 4),
        value: field(row, 5),
        unit: field(row, 6),
        person: field(row, 7),
        name: field(row, 8),
        moment: field(row, 9),
        reason: field(row, 10),
        digest: field(row, 11),
        seal: field(row, 12),
    })
}

// The field at a place, or an empty one if the row has fewer fields.
fn field(row: &ByteRecord, place: usize) -> &[u8]
    ensures { result.now ≡ field_in (fields_of row.now) place }
{
    match row.get(place) {
        Some(field) => field,
        None => b"",
    }
}

/// Whether a row is the header, which names the columns.
pub fn is_header(row: &ByteRecord) -> bool
    ensures { result ≡ is_header (fields_of row.now) }
{
    match row_fields(row) {
        Some(row) => has_header_names(&row),
        None => false,
    }
}

fn has_header_names(row: &RowFields<'_>) -> bool
    ensures { result ≡ has_header_names (columns_in row.now) }
{
    let fields = [
        row.kind,
        row.lab,
        row.record_number,
        row.version,
        row.key,
        row.value,
        row.unit,
        row.person,
        row.name,
        row.moment,
        row.reason,
        row.digest,
        row.seal,
    ];
    let names: [&[u8]; COLUMN_COUNT] = [
        b"kind", b"lab", b"record", b"version", b"key", b"value", b"unit", b"person", b"name",
        b"moment", b"reason", b"digest", b"seal",
    ];
    fields == names
}
