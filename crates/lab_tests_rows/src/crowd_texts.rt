//! A crowd in brick, by `tests/model/disked.py`, where the ids are those of rows that are spread.

/// How many rows brick's trail has before.
pub(crate) static CROWD_TRAIL_BEGINS: i64 = 5;

/// Adds a person of brick: an id and a code.
pub(crate) static CROWD_PERSON: &str = "\
    INSERT INTO persons (id, lab, code, name, roles, retired, failures, kind) VALUES (?, 10, \
    ?, 'P', 1, 0, 0, 0)";

/// Adds a record of brick: an id, a number and a sample.
pub(crate) static CROWD_RECORD: &str = "\
    INSERT INTO records (id, lab, number, form, form_code, sample, current) VALUES (?, 10, ?, \
    10, 'water', ?, 1)";

/// Adds a version: its id and that of its record.
pub(crate) static CROWD_VERSION: &str = "\
    INSERT INTO versions (id, record, number, format, opener, opened) VALUES (?, ?, 1, 2, 10, \
    1100)";

/// Adds an entry: its id and that of its version.
pub(crate) static CROWD_ENTRY: &str = "\
    INSERT INTO entries (id, version, place, key, value, unit, person, moment) VALUES (?, ?, \
    1, 'lead', '1.5', 'mg/L', 10, 1100)";

/// Adds a row of brick's trail: an id, a number and a subject.
pub(crate) static CROWD_TRAIL: &str = "\
    INSERT INTO trail (id, lab, number, moment, person, action, subject) VALUES (?, 10, ?, \
    1100, 10, 'record', ?)";

/// Counts what a crowd has added to brick.
pub(crate) static CROWD_COUNTS: &str = "\
    UPDATE labs SET records = 2000, trail = trail + 2000 WHERE id = 10";
