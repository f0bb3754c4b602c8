//! The copy of records 1 and 2, for nobody at second 6000, as `tests/model/copied.py 1 2`
//! prints it: hashes by Python's `hashlib`, rows by its `csv`.

/// A record that is released and amended, and one that is rejected.
pub(crate) const COPY: &str =
    "kind,lab,record,version,key,value,unit,person,name,moment,reason,digest,seal\n\
    copy,aqua,1,2,2,,,,Aqua Lab,1970-01-01T01:40:00Z,,,\n\
    record,aqua,1,1,water,S1,,,,,,,\n\
    version,aqua,1,1,2,released,,dan,,1970-01-01T00:16:40Z,,79610b0b80020b06ccc32eb56d5e2930ad6cea239d32569de11013459ebf2b0c,\n\
    entry,aqua,1,1,lead,7.50,mg/L,dan,,1970-01-01T00:18:20Z,,,\n\
    signature,aqua,1,1,,authorship,,dan,Dan Day,1970-01-01T00:20:00Z,,79610b0b80020b06ccc32eb56d5e2930ad6cea239d32569de11013459ebf2b0c,264cbf825abc0622caf3055b4450d7f32efad956706b2101174e01c663b35ec4\n\
    signature,aqua,1,1,,review,,eve,Eve Ems,1970-01-01T00:20:10Z,,79610b0b80020b06ccc32eb56d5e2930ad6cea239d32569de11013459ebf2b0c,711fb768e707d956a0c92bf004b2807206d8df9f5a1f4ab9b09151f1e35c6275\n\
    version,aqua,1,2,2,open,,dan,,1970-01-01T00:20:20Z,\"misread: \"\"7,50\"\"\",db500fad228e3afb7a2e1ff1bb59ab6e98734b6185c1b6229bb258393ab92d1d,\n\
    entry,aqua,1,2,lead,7.5,mg/L,dan,,1970-01-01T00:20:20Z,\"misread: \"\"7,50\"\"\",,\n\
    record,aqua,2,1,water,\"Sample, two\",,,,,,,\n\
    version,aqua,2,1,2,rejected,,dan,,1970-01-01T00:20:30Z,,aca9fac6c67453bacd5144ffac103fd817fe3563d2d11ba49c108528af607e1e,\n\
    entry,aqua,2,1,lead,<0.05,mg/L,dan,,1970-01-01T00:20:40Z,,,\n\
    entry,aqua,2,1,note,\"it says \"\"clear\"\"\",,dan,,1970-01-01T00:20:50Z,,,\n\
    signature,aqua,2,1,,authorship,,dan,Dan Day,1970-01-01T00:21:00Z,,aca9fac6c67453bacd5144ffac103fd817fe3563d2d11ba49c108528af607e1e,2b75dc9ee5049df89e86635fd82a2fdb2083985b0d64735a20e6bec01bfc4f78\n\
    signature,aqua,2,1,,rejection,,fay,Fay Fox,1970-01-01T00:21:10Z,no blank,aca9fac6c67453bacd5144ffac103fd817fe3563d2d11ba49c108528af607e1e,5ef26b6c2634fd624201a7edeb4ac6bcdd6d95ef8a4e20b48be6d7e4c0d97ee0\n\
    end,aqua,2,3,4,4,,,,,,,\n";
