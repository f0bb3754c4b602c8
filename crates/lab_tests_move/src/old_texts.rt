//! The texts of schema 2, which make a file of it, and carry rows into it out of a file of
//! today's.

/// The tables, and the row that names the schema.
pub(crate) const OLD_TABLES: &str = "\
    CREATE TABLE desk (id INTEGER PRIMARY KEY, schema INTEGER NOT NULL) STRICT; CREATE TABLE \
    labs (id INTEGER PRIMARY KEY, code TEXT NOT NULL UNIQUE, name TEXT NOT NULL, last \
    INTEGER NOT NULL, stray INTEGER NOT NULL, records INTEGER NOT NULL, sessions INTEGER NOT \
    NULL, trail INTEGER NOT NULL) STRICT; CREATE TABLE persons (id INTEGER PRIMARY KEY, lab \
    INTEGER NOT NULL REFERENCES labs (id), code TEXT NOT NULL, name TEXT NOT NULL, roles \
    INTEGER NOT NULL, retired INTEGER NOT NULL, failures INTEGER NOT NULL, locked INTEGER, \
    kind INTEGER NOT NULL, salt BLOB, rounds INTEGER, bytes BLOB, salt2 BLOB, bytes2 BLOB, \
    changed INTEGER, asker INTEGER REFERENCES persons (id), asked INTEGER, ask_salt BLOB, \
    ask_bytes BLOB, UNIQUE (lab, code)) STRICT; CREATE TABLE sessions (id INTEGER PRIMARY \
    KEY, lab INTEGER NOT NULL REFERENCES labs (id), person INTEGER NOT NULL REFERENCES \
    persons (id), number INTEGER NOT NULL, token BLOB NOT NULL, opened INTEGER NOT NULL, \
    last INTEGER NOT NULL, closed INTEGER NOT NULL, signed INTEGER NOT NULL, UNIQUE (lab, \
    token), UNIQUE (lab, number)) STRICT; CREATE TABLE forms (id INTEGER PRIMARY KEY, lab \
    INTEGER NOT NULL REFERENCES labs (id), code TEXT NOT NULL, version INTEGER NOT NULL, \
    UNIQUE (lab, code, version)) STRICT; CREATE TABLE fields (id INTEGER PRIMARY KEY, form \
    INTEGER NOT NULL REFERENCES forms (id), place INTEGER NOT NULL, key TEXT NOT NULL, label \
    TEXT NOT NULL, required INTEGER NOT NULL, kind TEXT NOT NULL, unit TEXT, decimals \
    INTEGER, low TEXT, high TEXT, size INTEGER, UNIQUE (form, place), UNIQUE (form, key)) \
    STRICT; CREATE TABLE choices (id INTEGER PRIMARY KEY, field INTEGER NOT NULL REFERENCES \
    fields (id), place INTEGER NOT NULL, name TEXT NOT NULL, UNIQUE (field, place)) STRICT; \
    CREATE TABLE records (id INTEGER PRIMARY KEY, lab INTEGER NOT NULL REFERENCES labs (id), \
    number INTEGER NOT NULL, form INTEGER NOT NULL REFERENCES forms (id), form_code TEXT NOT \
    NULL, sample TEXT NOT NULL, current INTEGER NOT NULL, UNIQUE (lab, number), UNIQUE (lab, \
    form_code, sample)) STRICT; CREATE TABLE versions (id INTEGER PRIMARY KEY, record \
    INTEGER NOT NULL REFERENCES records (id), number INTEGER NOT NULL, opener INTEGER NOT \
    NULL REFERENCES persons (id), opened INTEGER NOT NULL, reason TEXT, UNIQUE (record, \
    number)) STRICT; CREATE TABLE entries (id INTEGER PRIMARY KEY, version INTEGER NOT NULL \
    REFERENCES versions (id), place INTEGER NOT NULL, key TEXT NOT NULL, value TEXT NOT \
    NULL, unit TEXT NOT NULL, person INTEGER NOT NULL REFERENCES persons (id), moment \
    INTEGER NOT NULL, reason TEXT, UNIQUE (version, place)) STRICT; CREATE TABLE signatures \
    (id INTEGER PRIMARY KEY, version INTEGER NOT NULL REFERENCES versions (id), place \
    INTEGER NOT NULL, person INTEGER NOT NULL REFERENCES persons (id), name TEXT NOT NULL, \
    meaning TEXT NOT NULL, moment INTEGER NOT NULL, reason TEXT, digest BLOB NOT NULL, seal \
    BLOB NOT NULL, UNIQUE (version, place), UNIQUE (version, meaning)) STRICT; CREATE TABLE \
    trail (id INTEGER PRIMARY KEY, lab INTEGER NOT NULL REFERENCES labs (id), number INTEGER \
    NOT NULL, moment INTEGER NOT NULL, person INTEGER REFERENCES persons (id), action TEXT \
    NOT NULL, subject TEXT NOT NULL, UNIQUE (lab, number)) STRICT; INSERT INTO desk (schema) \
    VALUES (2);";

/// The rows of `labs`, with ids so far apart.
pub(crate) const READ_LABS: &str = "\
    SELECT id + ?1, code, name, last, stray, records, sessions, trail FROM labs";

/// A row of `labs`.
pub(crate) const WRITE_LABS: &str = "\
    INSERT INTO labs (id, code, name, last, stray, records, sessions, trail) VALUES (?1, ?2, \
    ?3, ?4, ?5, ?6, ?7, ?8)";

/// The rows of `persons`, with ids so far apart.
pub(crate) const READ_PERSONS: &str = "\
    SELECT id + ?1, lab + ?1, code, name, roles, retired, failures, locked, kind, salt, \
    rounds, bytes, salt2, bytes2, changed FROM persons";

/// A row of `persons`.
pub(crate) const WRITE_PERSONS: &str = "\
    INSERT INTO persons (id, lab, code, name, roles, retired, failures, locked, kind, salt, \
    rounds, bytes, salt2, bytes2, changed) VALUES (?1, ?2, ?3, ?4, ?5, ?6, ?7, ?8, ?9, ?10, \
    ?11, ?12, ?13, ?14, ?15)";

/// What was asked for, with ids so far apart.
pub(crate) const READ_ASKS: &str = "\
    SELECT id + ?1, asker + ?1, asked, ask_salt, ask_bytes FROM persons WHERE asker IS NOT \
    NULL";

/// What was asked for a person.
pub(crate) const WRITE_ASKS: &str = "\
    UPDATE persons SET asker = ?2, asked = ?3, ask_salt = ?4, ask_bytes = ?5 WHERE id = ?1";

/// The rows of `sessions`, with ids so far apart.
pub(crate) const READ_SESSIONS: &str = "\
    SELECT id + ?1, lab + ?1, person + ?1, number, token, opened, last, closed, signed FROM \
    sessions";

/// A row of `sessions`.
pub(crate) const WRITE_SESSIONS: &str = "\
    INSERT INTO sessions (id, lab, person, number, token, opened, last, closed, signed) \
    VALUES (?1, ?2, ?3, ?4, ?5, ?6, ?7, ?8, ?9)";

/// The rows of `forms`, with ids so far apart.
pub(crate) const READ_FORMS: &str = "\
    SELECT id + ?1, lab + ?1, code, version FROM forms";

/// A row of `forms`.
pub(crate) const WRITE_FORMS: &str = "\
    INSERT INTO forms (id, lab, code, version) VALUES (?1, ?2, ?3, ?4)";

/// The rows of `fields`, with ids so far apart.
pub(crate) const READ_FIELDS: &str = "\
    SELECT id + ?1, form + ?1, place, key, label, required, kind, unit, decimals, low, high, \
    size FROM fields";

/// A row of `fields`.
pub(crate) const WRITE_FIELDS: &str = "\
    INSERT INTO fields (id, form, place, key, label, required, kind, unit, decimals, low, \
    high, size) VALUES (?1, ?2, ?3, ?4, ?5, ?6, ?7, ?8, ?9, ?10, ?11, ?12)";

/// The rows of `choices`, with ids so far apart.
pub(crate) const READ_CHOICES: &str = "\
    SELECT id + ?1, field + ?1, place, name FROM choices";

/// A row of `choices`.
pub(crate) const WRITE_CHOICES: &str = "\
    INSERT INTO choices (id, field, place, name) VALUES (?1, ?2, ?3, ?4)";

/// The rows of `records`, with ids so far apart.
pub(crate) const READ_RECORDS: &str = "\
    SELECT id + ?1, lab + ?1, number, form + ?1, form_code, sample, current FROM records";

/// A row of `records`.
pub(crate) const WRITE_RECORDS: &str = "\
    INSERT INTO records (id, lab, number, form, form_code, sample, current) VALUES (?1, ?2, \
    ?3, ?4, ?5, ?6, ?7)";

/// The rows of `versions`, with ids so far apart.
pub(crate) const READ_VERSIONS: &str = "\
    SELECT id + ?1, record + ?1, number, opener + ?1, opened, reason FROM versions";

/// A row of `versions`.
pub(crate) const WRITE_VERSIONS: &str = "\
    INSERT INTO versions (id, record, number, opener, opened, reason) VALUES (?1, ?2, ?3, \
    ?4, ?5, ?6)";

/// The rows of `entries`, with ids so far apart.
pub(crate) const READ_ENTRIES: &str = "\
    SELECT id + ?1, version + ?1, place, key, value, unit, person + ?1, moment, reason FROM \
    entries";

/// A row of `entries`.
pub(crate) const WRITE_ENTRIES: &str = "\
    INSERT INTO entries (id, version, place, key, value, unit, person, moment, reason) \
    VALUES (?1, ?2, ?3, ?4, ?5, ?6, ?7, ?8, ?9)";

/// The rows of `signatures`, with ids so far apart.
pub(crate) const READ_SIGNATURES: &str = "\
    SELECT id + ?1, version + ?1, place, person + ?1, name, meaning, moment, reason, digest, \
    seal FROM signatures";

/// A row of `signatures`.
pub(crate) const WRITE_SIGNATURES: &str = "\
    INSERT INTO signatures (id, version, place, person, name, meaning, moment, reason, \
    digest, seal) VALUES (?1, ?2, ?3, ?4, ?5, ?6, ?7, ?8, ?9, ?10)";

/// The rows of `trail`, with ids so far apart.
pub(crate) const READ_TRAIL: &str = "\
    SELECT id + ?1, lab + ?1, number, moment, person + ?1, action, subject FROM trail";

/// A row of `trail`.
pub(crate) const WRITE_TRAIL: &str = "\
    INSERT INTO trail (id, lab, number, moment, person, action, subject) VALUES (?1, ?2, ?3, \
    ?4, ?5, ?6, ?7)";
