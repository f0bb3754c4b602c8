//! The rows of two laboratories, by `tests/model/disked.py`. Each id is a number behind #.

/// Those of brick.
pub static BRICK_ROWS: &str = "\
    INSERT INTO labs (id, code, name, last, stray, records, sessions, trail) VALUES (#1, \
    'brick', 'Brick Lab', 70, 0, 3, 2, 18); INSERT INTO persons (id, lab, code, name, roles, \
    retired, failures, locked, kind, salt, rounds, bytes, salt2, rounds2, bytes2, changed, \
    asker, asked, ask_salt, ask_rounds, ask_bytes) VALUES (#1, #1, 'bob', 'Bob Bell', 10, 0, \
    0, NULL, 1, x'00000000000003f200000000000003f3', 10000, \
    x'306127091ef515fcfeef9e567ff6419b544b0604a5849753873f391a7dcaadac', NULL, NULL, NULL, 0, \
    NULL, NULL, NULL, NULL, NULL), (#2, #1, 'ann', 'Ann Ames', 13, 0, 0, NULL, 1, \
    x'00000000000003f000000000000003f1', 10000, x'e0439102766875d73d2f0f3b9c2798e41c3a60d36e9b6\
    7e23690fd3ca5d9c31b', NULL, NULL, NULL, 0, NULL, NULL, NULL, NULL, NULL), (#3, #1, 'dan', \
    'Dan Day', 1, 0, 0, NULL, 0, NULL, NULL, NULL, NULL, NULL, NULL, NULL, NULL, NULL, NULL, \
    NULL, NULL), (#4, #1, 'cid', 'Cid Cole', 8, 0, 0, NULL, 1, \
    x'00000000000003f400000000000003f5', 10000, x'7d9a9fc8559032eca5a35f5ccd2e0b855bc1431f8a40d\
    8206e96d071612414d0', NULL, NULL, NULL, 0, NULL, NULL, NULL, NULL, NULL), (#5, #1, 'eve', \
    'Eve Ems', 1, 0, 0, NULL, 0, NULL, NULL, NULL, NULL, NULL, NULL, NULL, #2, 30, \
    x'000000000000042c000000000000042d', 10000, x'428ad067e6292ee0cbf6a7cf61927ae3d2d0d20d1b7ed\
    58771fa26f1fa513292'); INSERT INTO sessions (id, lab, person, number, token, opened, last, \
    closed, signed) VALUES (#1, #1, #1, 2, x'41b4eeb2f139abb2ca4cc47b5d14f64e1bbbbfc9a75a1a3d0d\
    ae47ab29fbda6a', 15, 70, 0, 1), (#2, #1, #2, 1, \
    x'79a8c7f1f347b71bd714bfdb2a7e7392ff0c895336ad7bad32de9bdbcc326f9d', 15, 60, 0, 1); INSERT \
    INTO forms (id, lab, code, version, approval) VALUES (#1, #1, 'water', 1, 0); INSERT INTO \
    fields (id, form, place, key, label, required, kind, unit, decimals, low, high, size) \
    VALUES (#1, #1, 1, 'lead', 'Lead', 1, 'number', 'mg/L', 2, '0', NULL, NULL), (#2, #1, 3, \
    'colour', 'Colour', 0, 'choice', NULL, NULL, NULL, NULL, NULL), (#3, #1, 2, 'note', \
    'Note', 0, 'text', NULL, NULL, NULL, NULL, 200); INSERT INTO choices (id, field, place, \
    name) VALUES (#1, #2, 1, 'none'), (#2, #2, 2, 'pale blue'); INSERT INTO records (id, lab, \
    number, form, form_code, sample, current) VALUES (#1, #1, 2, #1, 'water', 'S2', 1), (#2, \
    #1, 1, #1, 'water', 'S1', 1), (#3, #1, 3, #1, 'water', 'S3', 1); INSERT INTO versions (id, \
    record, number, format, opener, opened, reason) VALUES (#1, #1, 1, 2, #2, 50, NULL), (#2, \
    #2, 1, 2, #2, 50, NULL), (#3, #3, 1, 2, #2, 50, NULL); INSERT INTO entries (id, version, \
    place, key, value, unit, person, moment, reason) VALUES (#1, #1, 1, 'lead', '6.50', \
    'mg/L', #2, 50, NULL), (#2, #2, 1, 'lead', '6.25', 'mg/L', #2, 50, NULL), (#3, #3, 1, \
    'lead', '6.75', 'mg/L', #2, 50, NULL); INSERT INTO signatures (id, version, place, person, \
    name, meaning, moment, reason, digest, seal) VALUES (#1, #1, 1, #2, 'Ann Ames', \
    'authorship', 60, NULL, x'3d62890a23370d514d158740b4fa64bc41c61faffab87d5d1a462f169b365ba1'\
    , x'6cf9007e3adf180ec58de9d391dd50932535df27909a764a3d5d8ba4ba3623ff'), (#2, #3, 1, #2, \
    'Ann Ames', 'authorship', 60, NULL, x'af0f4e008fad241e2acc79fb0a5c4bd4fe8b5414beee0ca0dcfef\
    e4becc37e0e', x'eac7bad0493feac142465f3b1f97eedc402b723fafc585a36b72014f5410292d'), (#3, \
    #3, 2, #1, 'Bob Bell', 'review', 70, NULL, x'af0f4e008fad241e2acc79fb0a5c4bd4fe8b5414beee0c\
    a0dcfefe4becc37e0e', x'e422dc21b896d528caa1ac3087b181f8c6b253a2d0c539582af9ebf7fbf4a665'); \
    INSERT INTO trail (id, lab, number, moment, person, action, subject) VALUES (#1, #1, 7, \
    30, #2, 'enrol', 'eve analyst'), (#2, #1, 14, 50, #2, 'record', '3'), (#3, #1, 1, 0, NULL, \
    'found', 'brick'), (#4, #1, 9, 40, #2, 'form', 'water/1'), (#5, #1, 4, 20, #1, 'roles', \
    'ann analyst manager administrator'), (#6, #1, 13, 50, #2, 'entry', '2/1/lead'), (#7, #1, \
    8, 30, #2, 'issue', 'eve'), (#8, #1, 12, 50, #2, 'record', '2'), (#9, #1, 15, 50, #2, \
    'entry', '3/1/lead'), (#10, #1, 17, 60, #2, 'sign', '3/1/authorship'), (#11, #1, 6, 30, \
    #2, 'enrol', 'dan analyst'), (#12, #1, 2, 15, #2, 'open', '1'), (#13, #1, 11, 50, #2, \
    'entry', '1/1/lead'), (#14, #1, 18, 70, #1, 'sign', '3/1/review'), (#15, #1, 10, 50, #2, \
    'record', '1'), (#16, #1, 5, 20, #2, 'roles', 'bob reviewer administrator'), (#17, #1, 16, \
    60, #2, 'sign', '2/1/authorship'), (#18, #1, 3, 15, #1, 'open', '2')";

/// Those of aqua.
pub static AQUA_ROWS: &str = "\
    INSERT INTO labs (id, code, name, last, stray, records, sessions, trail) VALUES (#2, \
    'aqua', 'Aqua Lab', 70, 0, 3, 2, 18); INSERT INTO persons (id, lab, code, name, roles, \
    retired, failures, locked, kind, salt, rounds, bytes, salt2, rounds2, bytes2, changed, \
    asker, asked, ask_salt, ask_rounds, ask_bytes) VALUES (#6, #2, 'ann', 'Ann Ames', 13, 0, \
    0, NULL, 1, x'00000000000003f000000000000003f1', 10000, \
    x'e0439102766875d73d2f0f3b9c2798e41c3a60d36e9b67e23690fd3ca5d9c31b', NULL, NULL, NULL, 0, \
    NULL, NULL, NULL, NULL, NULL), (#7, #2, 'dan', 'Dan Day', 1, 0, 0, NULL, 0, NULL, NULL, \
    NULL, NULL, NULL, NULL, NULL, NULL, NULL, NULL, NULL, NULL), (#8, #2, 'bob', 'Bob Bell', \
    10, 0, 0, NULL, 1, x'00000000000003f200000000000003f3', 10000, \
    x'306127091ef515fcfeef9e567ff6419b544b0604a5849753873f391a7dcaadac', NULL, NULL, NULL, 0, \
    NULL, NULL, NULL, NULL, NULL), (#9, #2, 'cid', 'Cid Cole', 8, 0, 0, NULL, 1, \
    x'00000000000003f400000000000003f5', 10000, x'7d9a9fc8559032eca5a35f5ccd2e0b855bc1431f8a40d\
    8206e96d071612414d0', NULL, NULL, NULL, 0, NULL, NULL, NULL, NULL, NULL), (#10, #2, 'eve', \
    'Eve Ems', 1, 0, 0, NULL, 0, NULL, NULL, NULL, NULL, NULL, NULL, NULL, #6, 30, \
    x'000000000000042c000000000000042d', 10000, x'428ad067e6292ee0cbf6a7cf61927ae3d2d0d20d1b7ed\
    58771fa26f1fa513292'); INSERT INTO sessions (id, lab, person, number, token, opened, last, \
    closed, signed) VALUES (#3, #2, #8, 2, x'41b4eeb2f139abb2ca4cc47b5d14f64e1bbbbfc9a75a1a3d0d\
    ae47ab29fbda6a', 10, 70, 0, 1), (#4, #2, #6, 1, \
    x'79a8c7f1f347b71bd714bfdb2a7e7392ff0c895336ad7bad32de9bdbcc326f9d', 10, 60, 0, 1); INSERT \
    INTO forms (id, lab, code, version, approval) VALUES (#2, #2, 'water', 1, 0); INSERT INTO \
    fields (id, form, place, key, label, required, kind, unit, decimals, low, high, size) \
    VALUES (#4, #2, 2, 'note', 'Note', 0, 'text', NULL, NULL, NULL, NULL, 200), (#5, #2, 3, \
    'colour', 'Colour', 0, 'choice', NULL, NULL, NULL, NULL, NULL), (#6, #2, 1, 'lead', \
    'Lead', 1, 'number', 'mg/L', 2, '0', NULL, NULL); INSERT INTO choices (id, field, place, \
    name) VALUES (#3, #5, 2, 'pale blue'), (#4, #5, 1, 'none'); INSERT INTO records (id, lab, \
    number, form, form_code, sample, current) VALUES (#4, #2, 2, #2, 'water', 'S2', 1), (#5, \
    #2, 1, #2, 'water', 'S1', 1), (#6, #2, 3, #2, 'water', 'S3', 1); INSERT INTO versions (id, \
    record, number, format, opener, opened, reason) VALUES (#4, #4, 1, 2, #6, 50, NULL), (#5, \
    #5, 1, 2, #6, 50, NULL), (#6, #6, 1, 2, #6, 50, NULL); INSERT INTO entries (id, version, \
    place, key, value, unit, person, moment, reason) VALUES (#4, #4, 1, 'lead', '7.75', \
    'mg/L', #6, 50, NULL), (#5, #5, 1, 'lead', '7.50', 'mg/L', #6, 50, NULL), (#6, #6, 1, \
    'lead', '8.00', 'mg/L', #6, 50, NULL); INSERT INTO signatures (id, version, place, person, \
    name, meaning, moment, reason, digest, seal) VALUES (#4, #4, 1, #6, 'Ann Ames', \
    'authorship', 60, NULL, x'a9da49c57af0e505c446524707d6931e1975f08b6189929e5dac8d1acb665181'\
    , x'1403fd2d6c4f4a55ee0ee6fe5879fd3995f7aa951d76d10becc8f893c1a827bb'), (#5, #6, 1, #6, \
    'Ann Ames', 'authorship', 60, NULL, x'f2b30314bec98ffc7bc290dbb4fe7c6f6f339fe5bb942a42c3697\
    243b5dae438', x'c958842405e4dedad83291e521af7dc1ec5c69e79f2137d1a30082be372a6ec3'), (#6, \
    #6, 2, #8, 'Bob Bell', 'review', 70, NULL, x'f2b30314bec98ffc7bc290dbb4fe7c6f6f339fe5bb942a\
    42c3697243b5dae438', x'701a4e814a22733d036a2f159ebd38629c7d16b56dcfc1d8ba96b3336d233323'); \
    INSERT INTO trail (id, lab, number, moment, person, action, subject) VALUES (#19, #2, 12, \
    50, #6, 'record', '2'), (#20, #2, 16, 60, #6, 'sign', '2/1/authorship'), (#21, #2, 1, 0, \
    NULL, 'found', 'aqua'), (#22, #2, 8, 30, #6, 'issue', 'eve'), (#23, #2, 17, 60, #6, \
    'sign', '3/1/authorship'), (#24, #2, 5, 20, #6, 'roles', 'bob reviewer administrator'), \
    (#25, #2, 18, 70, #8, 'sign', '3/1/review'), (#26, #2, 10, 50, #6, 'record', '1'), (#27, \
    #2, 11, 50, #6, 'entry', '1/1/lead'), (#28, #2, 7, 30, #6, 'enrol', 'eve analyst'), (#29, \
    #2, 3, 10, #8, 'open', '2'), (#30, #2, 2, 10, #6, 'open', '1'), (#31, #2, 13, 50, #6, \
    'entry', '2/1/lead'), (#32, #2, 9, 40, #6, 'form', 'water/1'), (#33, #2, 14, 50, #6, \
    'record', '3'), (#34, #2, 4, 20, #8, 'roles', 'ann analyst manager administrator'), (#35, \
    #2, 15, 50, #6, 'entry', '3/1/lead'), (#36, #2, 6, 30, #6, 'enrol', 'dan analyst')";
