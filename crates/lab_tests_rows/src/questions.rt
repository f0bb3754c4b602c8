//! What is asked of the tables, by `tests/model/kept_rows.py`: of a laboratory, and how many rows.

pub(crate) static QUESTIONS: [&str; 13] = [
    "\
        SELECT code, name, last, stray, records, sessions, trail FROM labs WHERE code = ?1",
    "\
        SELECT persons.code, persons.name, roles, retired, failures, locked, kind, salt, rounds, \
        bytes, salt2, rounds2, bytes2, changed, asked, ask_salt, ask_rounds, ask_bytes FROM labs, \
        persons WHERE labs.code = ?1 AND persons.lab = labs.id ORDER BY persons.code",
    "\
        SELECT persons.code, askers.code, askers.lab = labs.id FROM labs, persons, persons AS \
        askers WHERE labs.code = ?1 AND persons.lab = labs.id AND askers.id = persons.asker ORDER \
        BY persons.code",
    "\
        SELECT sessions.number, persons.code, persons.lab = labs.id, token, opened, sessions.last, \
        closed, signed FROM labs, sessions, persons WHERE labs.code = ?1 AND sessions.lab = \
        labs.id AND persons.id = sessions.person ORDER BY sessions.number",
    "\
        SELECT forms.code, version, approval FROM labs, forms WHERE labs.code = ?1 AND forms.lab = \
        labs.id ORDER BY forms.code, version",
    "\
        SELECT forms.code, version, place, key, label, required, kind, unit, decimals, low, high, \
        size FROM labs, forms, fields WHERE labs.code = ?1 AND forms.lab = labs.id AND fields.form \
        = forms.id ORDER BY forms.code, version, place",
    "\
        SELECT forms.code, version, key, choices.place, choices.name FROM labs, forms, fields, \
        choices WHERE labs.code = ?1 AND forms.lab = labs.id AND fields.form = forms.id AND \
        choices.field = fields.id ORDER BY forms.code, version, key, choices.place",
    "\
        SELECT number, form_code, forms.code, version, forms.lab = labs.id, sample, current FROM \
        labs, records, forms WHERE labs.code = ?1 AND records.lab = labs.id AND forms.id = \
        records.form ORDER BY number",
    "\
        SELECT records.number, versions.number, format, persons.code, persons.lab = labs.id, \
        opened, reason FROM labs, records, versions, persons WHERE labs.code = ?1 AND records.lab \
        = labs.id AND versions.record = records.id AND persons.id = versions.opener ORDER BY \
        records.number, versions.number",
    "\
        SELECT records.number, versions.number, place, key, value, unit, persons.code, persons.lab \
        = labs.id, moment, entries.reason FROM labs, records, versions, entries, persons WHERE \
        labs.code = ?1 AND records.lab = labs.id AND versions.record = records.id AND \
        entries.version = versions.id AND persons.id = entries.person ORDER BY records.number, \
        versions.number, place",
    "\
        SELECT records.number, versions.number, place, persons.code, persons.lab = labs.id, \
        signatures.name, meaning, moment, signatures.reason, digest, seal FROM labs, records, \
        versions, signatures, persons WHERE labs.code = ?1 AND records.lab = labs.id AND \
        versions.record = records.id AND signatures.version = versions.id AND persons.id = \
        signatures.person ORDER BY records.number, versions.number, place",
    "\
        SELECT number, moment, action, subject FROM labs, trail WHERE labs.code = ?1 AND trail.lab \
        = labs.id ORDER BY number",
    "\
        SELECT number, persons.code, persons.lab = labs.id FROM labs, trail, persons WHERE \
        labs.code = ?1 AND trail.lab = labs.id AND persons.id = trail.person ORDER BY number",
];

pub(crate) static COUNTS: [&str; 12] = [
    "\
        SELECT count(*) FROM desk WHERE ?1 = 'all'",
    "\
        SELECT count(*) FROM labs WHERE ?1 = 'all'",
    "\
        SELECT count(*) FROM persons WHERE ?1 = 'all'",
    "\
        SELECT count(*) FROM sessions WHERE ?1 = 'all'",
    "\
        SELECT count(*) FROM forms WHERE ?1 = 'all'",
    "\
        SELECT count(*) FROM fields WHERE ?1 = 'all'",
    "\
        SELECT count(*) FROM choices WHERE ?1 = 'all'",
    "\
        SELECT count(*) FROM records WHERE ?1 = 'all'",
    "\
        SELECT count(*) FROM versions WHERE ?1 = 'all'",
    "\
        SELECT count(*) FROM entries WHERE ?1 = 'all'",
    "\
        SELECT count(*) FROM signatures WHERE ?1 = 'all'",
    "\
        SELECT count(*) FROM trail WHERE ?1 = 'all'",
];
