//! The rows of two laboratories, by `tests/model/disked.py`. Each id is a number behind #.

/// Those of brick.
pub static WORKED_BRICK_ROWS: &str = "\
    INSERT INTO labs (id, code, name, last, stray, records, sessions, trail) VALUES (#1, \
    'brick', 'Brick Lab', 1100, 0, 0, 2, 5); INSERT INTO persons (id, lab, code, name, roles, \
    retired, failures, locked, kind, salt, rounds, bytes, salt2, rounds2, bytes2, changed, \
    asker, asked, ask_salt, ask_rounds, ask_bytes) VALUES (#1, #1, 'ann', 'Ann Ames', 13, 0, \
    0, NULL, 1, x'00000000000003f000000000000003f1', 10000, \
    x'e0439102766875d73d2f0f3b9c2798e41c3a60d36e9b67e23690fd3ca5d9c31b', NULL, NULL, NULL, 0, \
    NULL, NULL, NULL, NULL, NULL), (#2, #1, 'cid', 'Cid Cole', 8, 0, 0, NULL, 1, \
    x'00000000000003f400000000000003f5', 10000, x'7d9a9fc8559032eca5a35f5ccd2e0b855bc1431f8a40d\
    8206e96d071612414d0', NULL, NULL, NULL, 0, NULL, NULL, NULL, NULL, NULL), (#3, #1, 'bob', \
    'Bob Bell', 8, 0, 0, NULL, 1, x'00000000000003f200000000000003f3', 10000, \
    x'306127091ef515fcfeef9e567ff6419b544b0604a5849753873f391a7dcaadac', NULL, NULL, NULL, 0, \
    NULL, NULL, NULL, NULL, NULL); INSERT INTO sessions (id, lab, person, number, token, \
    opened, last, closed, signed) VALUES (#1, #1, #1, 1, \
    x'f3233c7df9b2dc6692bc9eec4b4c1bdd822dbc6894fadf60439d50307c724cad', 1100, 1100, 0, 0), \
    (#2, #1, #3, 2, x'885b7bed977cbeefbe956c65d4ee6b47f34bc9d9506ee9d3b520f030d6a5a20d', 1100, \
    1100, 0, 0); INSERT INTO forms (id, lab, code, version, approval) VALUES (#1, #1, 'water', \
    1, 0); INSERT INTO fields (id, form, place, key, label, required, kind, unit, decimals, \
    low, high, size) VALUES (#1, #1, 1, 'lead', 'Lead', 1, 'number', 'mg/L', 2, '0', NULL, \
    NULL); INSERT INTO trail (id, lab, number, moment, person, action, subject) VALUES (#1, \
    #1, 4, 1100, #3, 'roles', 'ann analyst manager administrator'), (#2, #1, 2, 1100, #1, \
    'open', '1'), (#3, #1, 1, 0, NULL, 'found', 'brick'), (#4, #1, 5, 1100, #1, 'form', \
    'water/1'), (#5, #1, 3, 1100, #3, 'open', '2')";

/// Those of aqua.
pub static WORKED_AQUA_ROWS: &str = "\
    INSERT INTO labs (id, code, name, last, stray, records, sessions, trail) VALUES (#2, \
    'aqua', 'Aqua Lab', 1100, 0, 1, 8, 32); INSERT INTO persons (id, lab, code, name, roles, \
    retired, failures, locked, kind, salt, rounds, bytes, salt2, rounds2, bytes2, changed, \
    asker, asked, ask_salt, ask_rounds, ask_bytes) VALUES (#4, #2, 'gus', 'Gus Gray', 4, 0, 0, \
    NULL, 1, x'00000000000004c400000000000004c5', 10000, \
    x'33dd0ce31ababb3bf4858872aa7c6e0b3d6a93daef0206f67c939c3c0517e457', NULL, NULL, NULL, \
    500, NULL, NULL, NULL, NULL, NULL), (#5, #2, 'dan', 'Dan Day', 1, 0, 0, NULL, 1, \
    x'00000000000004ac00000000000004ad', 10000, x'53512b7598376178a9ef9a06bdb7874fdb11e9422e3e0\
    ae3fe2307c4845b8549', NULL, NULL, NULL, 500, NULL, NULL, NULL, NULL, NULL), (#6, #2, \
    'eve', 'Eve Ems', 3, 0, 0, NULL, 1, x'00000000000004b400000000000004b5', 10000, \
    x'd6bf4a00f85952e78c828f8b8a96be6f09749dab7589636895e54110623baf8a', NULL, NULL, NULL, \
    500, NULL, NULL, NULL, NULL, NULL), (#7, #2, 'ann', 'Ann Ames', 8, 0, 0, NULL, 1, \
    x'00000000000000010000000000000002', 10000, x'a33897d9766c291aa1e19dc74327f3d967184d11fa010\
    02d618410d95a46b84e', NULL, NULL, NULL, 0, NULL, NULL, NULL, NULL, NULL), (#8, #2, 'hal', \
    'Hal Hill', 16, 0, 0, NULL, 1, x'00000000000004cc00000000000004cd', 10000, \
    x'a1c851fa6b55ad2d5710322c31c299034ed6c3410f6b93ba8094a4eb5fada226', NULL, NULL, NULL, \
    500, NULL, NULL, NULL, NULL, NULL), (#9, #2, 'bob', 'Bob Bell', 8, 0, 0, NULL, 1, \
    x'00000000000000030000000000000004', 10000, x'f35f0bd523eef83d2b109ca900187bbbf5de36fdfc65f\
    777344e4e7de987c861', NULL, NULL, NULL, 0, NULL, NULL, NULL, NULL, NULL), (#10, #2, 'fay', \
    'Fay Fox', 2, 0, 0, NULL, 1, x'00000000000004bc00000000000004bd', 10000, \
    x'363c969f4b0371fe8704be5be93b636f6b19edfd80c214054e1a8a35b22abbaf', NULL, NULL, NULL, \
    500, NULL, NULL, NULL, NULL, NULL), (#11, #2, 'cid', 'Cid Cole', 8, 0, 0, NULL, 1, \
    x'00000000000000050000000000000006', 10000, x'8a5936d91ac0ad013e3f25731552fbc900e71c9d07850\
    610837839084790796c', NULL, NULL, NULL, 0, NULL, NULL, NULL, NULL, NULL); INSERT INTO \
    sessions (id, lab, person, number, token, opened, last, closed, signed) VALUES (#3, #2, \
    #4, 6, x'dde2b7a933df97d7739485cd334996e7111b12c473bf6f6c1fe84e7f3eef135b', 20, 600, 0, \
    0), (#4, #2, #7, 1, x'79a8c7f1f347b71bd714bfdb2a7e7392ff0c895336ad7bad32de9bdbcc326f9d', \
    10, 20, 0, 0), (#5, #2, #8, 7, x'176d6e149fb46c499b4731548b23aef43962656efc7dc98e0b0473a725\
    9cd94f', 20, 500, 0, 0), (#6, #2, #5, 8, x'c58cf056efcf7fc5a96192a16eee4a0d48f039537c4101e5\
    2e7b1dc9fee8d40f', 900, 1100, 0, 0), (#7, #2, #10, 5, \
    x'77875fb5d092571476046d7ae1cec491f38b46faf70c2ada9e6d05355b079703', 20, 500, 0, 0), (#8, \
    #2, #9, 2, x'41b4eeb2f139abb2ca4cc47b5d14f64e1bbbbfc9a75a1a3d0dae47ab29fbda6a', 10, 20, 0, \
    0), (#9, #2, #6, 4, x'997cc0d52a7c88c80914cede7d457066a0be822e3b0a5ab74bed456d2aa14576', \
    20, 500, 0, 0), (#10, #2, #5, 3, x'80efce3abb5f5e9e9b9dfec955b7519b05ddc127759f5e8f95e18142\
    8f030005', 20, 500, 0, 0); INSERT INTO forms (id, lab, code, version, approval) VALUES \
    (#2, #2, 'water', 1, 0); INSERT INTO fields (id, form, place, key, label, required, kind, \
    unit, decimals, low, high, size) VALUES (#2, #2, 1, 'lead', 'Lead', 1, 'number', 'mg/L', \
    2, '0', NULL, NULL), (#3, #2, 2, 'note', 'Note', 0, 'text', NULL, NULL, NULL, NULL, 200); \
    INSERT INTO records (id, lab, number, form, form_code, sample, current) VALUES (#1, #2, 1, \
    #2, 'water', 'S1', 1); INSERT INTO versions (id, record, number, format, opener, opened, \
    reason) VALUES (#1, #1, 1, 2, #5, 1000, NULL); INSERT INTO entries (id, version, place, \
    key, value, unit, person, moment, reason) VALUES (#1, #1, 1, 'lead', '7.50', 'mg/L', #5, \
    1100, NULL); INSERT INTO trail (id, lab, number, moment, person, action, subject) VALUES \
    (#6, #2, 15, 20, #10, 'open', '5'), (#7, #2, 22, 20, #9, 'confirm', 'hal'), (#8, #2, 8, \
    20, #7, 'enrol', 'eve analyst reviewer'), (#9, #2, 25, 500, #6, 'password', 'eve'), (#10, \
    #2, 32, 1100, #5, 'entry', '1/1/lead'), (#11, #2, 10, 20, #9, 'confirm', 'eve'), (#12, #2, \
    1, 0, NULL, 'found', 'aqua'), (#13, #2, 14, 20, #9, 'confirm', 'fay'), (#14, #2, 18, 20, \
    #9, 'confirm', 'gus'), (#15, #2, 21, 20, #7, 'issue', 'hal'), (#16, #2, 4, 20, #7, \
    'enrol', 'dan analyst'), (#17, #2, 6, 20, #9, 'confirm', 'dan'), (#18, #2, 27, 500, #4, \
    'password', 'gus'), (#19, #2, 31, 1000, #5, 'record', '1'), (#20, #2, 11, 20, #6, 'open', \
    '4'), (#21, #2, 17, 20, #7, 'issue', 'gus'), (#22, #2, 29, 600, #4, 'form', 'water/1'), \
    (#23, #2, 9, 20, #7, 'issue', 'eve'), (#24, #2, 16, 20, #7, 'enrol', 'gus manager'), (#25, \
    #2, 24, 500, #5, 'password', 'dan'), (#26, #2, 19, 20, #4, 'open', '6'), (#27, #2, 5, 20, \
    #7, 'issue', 'dan'), (#28, #2, 13, 20, #7, 'issue', 'fay'), (#29, #2, 30, 900, #5, 'open', \
    '8'), (#30, #2, 7, 20, #5, 'open', '3'), (#31, #2, 20, 20, #7, 'enrol', 'hal inspector'), \
    (#32, #2, 26, 500, #10, 'password', 'fay'), (#33, #2, 12, 20, #7, 'enrol', 'fay \
    reviewer'), (#34, #2, 2, 10, #7, 'open', '1'), (#35, #2, 3, 10, #9, 'open', '2'), (#36, \
    #2, 28, 500, #8, 'password', 'hal'), (#37, #2, 23, 20, #8, 'open', '7')";
