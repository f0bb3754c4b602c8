//! The statements that make the file: its tables, one after the other, and its index; and the names of the tables.

pub(crate) const NAMES: [&str; 12] = [
    "desk",
    "labs",
    "persons",
    "sessions",
    "forms",
    "fields",
    "choices",
    "records",
    "versions",
    "entries",
    "signatures",
    "trail",
];

pub(crate) const TABLES: [&str; 12] = [
    "CREATE TABLE desk (id INTEGER PRIMARY KEY, schema INTEGER NOT NULL) STRICT",
    "\
    CREATE TABLE labs (id INTEGER PRIMARY KEY, code TEXT NOT NULL UNIQUE, name TEXT NOT NULL, \
    last INTEGER NOT NULL, stray INTEGER NOT NULL, records INTEGER NOT NULL, sessions INTEGER \
    NOT NULL, trail INTEGER NOT NULL) STRICT",
    "\
    CREATE TABLE persons (id INTEGER PRIMARY KEY, lab INTEGER NOT NULL REFERENCES labs (id), \
    code TEXT NOT NULL, name TEXT NOT NULL, roles INTEGER NOT NULL, retired INTEGER NOT NULL, \
    failures INTEGER NOT NULL, locked INTEGER, kind INTEGER NOT NULL, salt BLOB, rounds \
    INTEGER, bytes BLOB, salt2 BLOB, rounds2 INTEGER, bytes2 BLOB, changed INTEGER, asker \
    INTEGER REFERENCES persons (id), asked INTEGER, ask_salt BLOB, ask_rounds INTEGER, \
    ask_bytes BLOB, UNIQUE (lab, code)) STRICT",
    "\
    CREATE TABLE sessions (id INTEGER PRIMARY KEY, lab INTEGER NOT NULL REFERENCES labs (id), \
    person INTEGER NOT NULL REFERENCES persons (id), number INTEGER NOT NULL, token BLOB NOT \
    NULL, opened INTEGER NOT NULL, last INTEGER NOT NULL, closed INTEGER NOT NULL, signed \
    INTEGER NOT NULL, UNIQUE (lab, token), UNIQUE (lab, number)) STRICT",
    "\
    CREATE TABLE forms (id INTEGER PRIMARY KEY, lab INTEGER NOT NULL REFERENCES labs (id), \
    code TEXT NOT NULL, version INTEGER NOT NULL, approval INTEGER NOT NULL, UNIQUE (lab, \
    code, version)) STRICT",
    "\
    CREATE TABLE fields (id INTEGER PRIMARY KEY, form INTEGER NOT NULL REFERENCES forms (id), \
    place INTEGER NOT NULL, key TEXT NOT NULL, label TEXT NOT NULL, required INTEGER NOT NULL, \
    kind TEXT NOT NULL, unit TEXT, decimals INTEGER, low TEXT, high TEXT, size INTEGER, UNIQUE \
    (form, place), UNIQUE (form, key)) STRICT",
    "\
    CREATE TABLE choices (id INTEGER PRIMARY KEY, field INTEGER NOT NULL REFERENCES fields \
    (id), place INTEGER NOT NULL, name TEXT NOT NULL, UNIQUE (field, place)) STRICT",
    "\
    CREATE TABLE records (id INTEGER PRIMARY KEY, lab INTEGER NOT NULL REFERENCES labs (id), \
    number INTEGER NOT NULL, form INTEGER NOT NULL REFERENCES forms (id), form_code TEXT NOT \
    NULL, sample TEXT NOT NULL, current INTEGER NOT NULL, UNIQUE (lab, number), UNIQUE (lab, \
    form_code, sample)) STRICT",
    "\
    CREATE TABLE versions (id INTEGER PRIMARY KEY, record INTEGER NOT NULL REFERENCES records \
    (id), number INTEGER NOT NULL, format INTEGER NOT NULL, opener INTEGER NOT NULL REFERENCES \
    persons (id), opened INTEGER NOT NULL, reason TEXT, UNIQUE (record, number)) STRICT",
    "\
    CREATE TABLE entries (id INTEGER PRIMARY KEY, version INTEGER NOT NULL REFERENCES versions \
    (id), place INTEGER NOT NULL, key TEXT NOT NULL, value TEXT NOT NULL, unit TEXT NOT NULL, \
    person INTEGER NOT NULL REFERENCES persons (id), moment INTEGER NOT NULL, reason TEXT, \
    UNIQUE (version, place)) STRICT",
    "\
    CREATE TABLE signatures (id INTEGER PRIMARY KEY, version INTEGER NOT NULL REFERENCES \
    versions (id), place INTEGER NOT NULL, person INTEGER NOT NULL REFERENCES persons (id), \
    name TEXT NOT NULL, meaning TEXT NOT NULL, moment INTEGER NOT NULL, reason TEXT, digest \
    BLOB NOT NULL, seal BLOB NOT NULL, UNIQUE (version, place), UNIQUE (version, meaning)) \
    STRICT",
    "\
    CREATE TABLE trail (id INTEGER PRIMARY KEY, lab INTEGER NOT NULL REFERENCES labs (id), \
    number INTEGER NOT NULL, moment INTEGER NOT NULL, person INTEGER REFERENCES persons (id), \
    action TEXT NOT NULL, subject TEXT NOT NULL, UNIQUE (lab, number)) STRICT",
];

/// A person's sessions, at a lock and at a retirement.
pub(crate) const SESSIONS_OF_PERSON: &str =
    "CREATE INDEX sessions_of_person ON sessions (person, closed)";
