//! What is asked, each by itself, and its replies, by `tests/model/disked.py`.
use lab_tests_rows::Exchange;

/// The digest of what the rows say as they are.
pub(crate) static ROWS_BEFORE: &[u8; 64] = b"\
    ab52449fae72eb4ed845bb1f5a4d467ff86c2fdffabcf68aed64f8aaf1222f48";

/// The reply where the store refuses.
pub(crate) static STORAGE_REPLY: &[u8] = b"\
    HTTP/1.1 503 Service Unavailable\r\nDate: Thu, 01 Jan 1970 00:01:40 GMT\r\nContent-Type: \
    application/json\r\nContent-Length: 31\r\nConnection: close\r\n\r\n\
    {\"error\":\"storage\",\"number\":63}";

pub(crate) static ENTRY: Exchange = Exchange {
    seconds: 100,
    first: 10008,
    request: b"\
    POST /labs/aqua/entries HTTP/1.1\r\nHost: d\r\nAuthorization: LabSession \
    00000000000003f800000000000003f900000000000003fa00000000000003fb\r\nContent-Length: 51\r\n\
    \r\n{\"record\":1,\"key\":\"note\",\"value\":\"clear\",\"unit\":\"\"}",
    reply: b"\
    HTTP/1.1 200 OK\r\nDate: Thu, 01 Jan 1970 00:01:40 GMT\r\nContent-Type: \
    application/json\r\nContent-Length: 109\r\nConnection: close\r\n\r\n\
    {\"digest\":\"1dc22e7f178ac8e501d09029f5ced23212534d4fe8d575cee97f0024491595ed\",\"record\"\
    :1,\"rows\":2,\"version\":1}",
};

pub(crate) static ROWS_AFTER_ENTRY: &[u8; 64] = b"\
    f65b5818d331e92024cad6ed9946659ae4be0f177adc76af56192e8de1905a0a";

pub(crate) static SIGNING: Exchange = Exchange {
    seconds: 100,
    first: 10008,
    request: b"\
    POST /labs/aqua/signatures HTTP/1.1\r\nHost: d\r\nAuthorization: LabSession \
    00000000000003f800000000000003f900000000000003fa00000000000003fb\r\nContent-Length: 152\r\n\
    \r\n{\"record\":1,\"version\":1,\"digest\":\"ec983763617fe2c390d6610dff63ab1e0400e4d659feef\
    efe41803275a6c97d8\",\"meaning\":\"authorship\",\"password\":\"correct horse 1\"}",
    reply: b"\
    HTTP/1.1 200 OK\r\nDate: Thu, 01 Jan 1970 00:01:40 GMT\r\nContent-Type: \
    application/json\r\nContent-Length: 241\r\nConnection: close\r\n\r\n\
    {\"digest\":\"ec983763617fe2c390d6610dff63ab1e0400e4d659feefefe41803275a6c97d8\",\"meaning\
    \":\"authorship\",\"moment\":\"1970-01-01T00:01:40Z\",\"name\":\"Ann \
    Ames\",\"seal\":\"92e68086955acf438d8789b5f41689e9eee8f0796e14cb540e627322443cec4e\",\"stat\
    e\":\"signed\"}",
};

pub(crate) static ROWS_AFTER_SIGNING: &[u8; 64] = b"\
    7f3cedacfd04a0fec8e99799b1f6898d7d13f4d52b5d23dee878b6fead2ef99d";

pub(crate) static REVIEW: Exchange = Exchange {
    seconds: 100,
    first: 10008,
    request: b"\
    POST /labs/aqua/signatures HTTP/1.1\r\nHost: d\r\nAuthorization: LabSession \
    0000000000000400000000000000040100000000000004020000000000000403\r\nContent-Length: 148\r\n\
    \r\n{\"record\":2,\"version\":1,\"digest\":\"a9da49c57af0e505c446524707d6931e1975f08b618992\
    9e5dac8d1acb665181\",\"meaning\":\"review\",\"password\":\"correct horse 2\"}",
    reply: b"\
    HTTP/1.1 200 OK\r\nDate: Thu, 01 Jan 1970 00:01:40 GMT\r\nContent-Type: \
    application/json\r\nContent-Length: 239\r\nConnection: close\r\n\r\n\
    {\"digest\":\"a9da49c57af0e505c446524707d6931e1975f08b6189929e5dac8d1acb665181\",\"meaning\
    \":\"review\",\"moment\":\"1970-01-01T00:01:40Z\",\"name\":\"Bob \
    Bell\",\"seal\":\"ce06be338734c5f8a5ce817fef891c72b5bd0a362513d3d38dc1805935a5551e\",\"stat\
    e\":\"released\"}",
};

pub(crate) static ROWS_AFTER_REVIEW: &[u8; 64] = b"\
    cd0d91ed53deaaa47ba0bda8923c27544d80c9dd5d2c3124b837cb4d7924abb1";

pub(crate) static AMENDMENT: Exchange = Exchange {
    seconds: 100,
    first: 10008,
    request: b"\
    POST /labs/aqua/amendments HTTP/1.1\r\nHost: d\r\nAuthorization: LabSession \
    00000000000003f800000000000003f900000000000003fa00000000000003fb\r\nContent-Length: 92\r\n\
    \r\n{\"record\":3,\"reason\":\"misread scale\",\"altered\":[{\"key\":\"lead\",\"value\":\"7\
    .4\",\"unit\":\"mg/L\"}]}",
    reply: b"\
    HTTP/1.1 200 OK\r\nDate: Thu, 01 Jan 1970 00:01:40 GMT\r\nContent-Type: \
    application/json\r\nContent-Length: 100\r\nConnection: close\r\n\r\n\
    {\"digest\":\"15d7b996ea686cb4a9d00991333689ad9088548c43a3a1ebbe13687eb2560f82\",\"record\"\
    :3,\"version\":2}",
};

pub(crate) static ROWS_AFTER_AMENDMENT: &[u8; 64] = b"\
    80e5280f1e1d7d60463e3bc9b6361a2744e3f93087515758146398aca140b10f";

pub(crate) static ISSUE: Exchange = Exchange {
    seconds: 100,
    first: 10008,
    request: b"\
    POST /labs/aqua/issue HTTP/1.1\r\nHost: d\r\nAuthorization: LabSession \
    00000000000003f800000000000003f900000000000003fa00000000000003fb\r\nContent-Length: 14\r\n\
    \r\n{\"code\":\"dan\"}",
    reply: b"\
    HTTP/1.1 200 OK\r\nDate: Thu, 01 Jan 1970 00:01:40 GMT\r\nContent-Type: \
    application/json\r\nContent-Length: 43\r\nConnection: close\r\n\r\n\
    {\"half\":\"00000000000027180000000000002719\"}",
};

pub(crate) static ROWS_AFTER_ISSUE: &[u8; 64] = b"\
    10714bb25abc4d263420c00f9687eac00930d57920778a9bd4a7ca2f049fd086";

pub(crate) static CONFIRMATION: Exchange = Exchange {
    seconds: 100,
    first: 10008,
    request: b"\
    POST /labs/aqua/confirm HTTP/1.1\r\nHost: d\r\nAuthorization: LabSession \
    0000000000000400000000000000040100000000000004020000000000000403\r\nContent-Length: 14\r\n\
    \r\n{\"code\":\"eve\"}",
    reply: b"\
    HTTP/1.1 200 OK\r\nDate: Thu, 01 Jan 1970 00:01:40 GMT\r\nContent-Type: \
    application/json\r\nContent-Length: 43\r\nConnection: close\r\n\r\n\
    {\"half\":\"00000000000027180000000000002719\"}",
};

pub(crate) static ROWS_AFTER_CONFIRMATION: &[u8; 64] = b"\
    7247f583adc76bfbe05de99d3e6bcfe2a0ce65b22301a996b2395ccbc1a0de7a";

pub(crate) static COPY: Exchange = Exchange {
    seconds: 100,
    first: 10008,
    request: b"\
    GET /labs/aqua/copy?from=1&to=100 HTTP/1.1\r\nHost: d\r\nAuthorization: LabSession \
    00000000000003f800000000000003f900000000000003fa00000000000003fb\r\n\r\n",
    reply: b"\
    HTTP/1.1 200 OK\r\nDate: Thu, 01 Jan 1970 00:01:40 GMT\r\nContent-Type: text/csv\r\n\
    Content-Length: 1378\r\nConnection: close\r\n\r\n\
    kind,lab,record,version,key,value,unit,person,name,moment,reason,digest,seal\ncopy,aqua,1,1\
    00,2,,,ann,Aqua Lab,1970-01-01T00:01:40Z,,,\nrecord,aqua,1,1,water,S1,,,,,,,\nversion,aqua,\
    1,1,2,open,,ann,,1970-01-01T00:00:50Z,,ec983763617fe2c390d6610dff63ab1e0400e4d659feefefe418\
    03275a6c97d8,\nentry,aqua,1,1,lead,7.50,mg/L,ann,,1970-01-01T00:00:50Z,,,\nrecord,aqua,2,1,\
    water,S2,,,,,,,\nversion,aqua,2,1,2,signed,,ann,,1970-01-01T00:00:50Z,,a9da49c57af0e505c446\
    524707d6931e1975f08b6189929e5dac8d1acb665181,\nentry,aqua,2,1,lead,7.75,mg/L,ann,,1970-01-0\
    1T00:00:50Z,,,\nsignature,aqua,2,1,,authorship,,ann,Ann \
    Ames,1970-01-01T00:01:00Z,,a9da49c57af0e505c446524707d6931e1975f08b6189929e5dac8d1acb665181\
    ,1403fd2d6c4f4a55ee0ee6fe5879fd3995f7aa951d76d10becc8f893c1a827bb\nrecord,aqua,3,1,water,S3\
    ,,,,,,,\nversion,aqua,3,1,2,released,,ann,,1970-01-01T00:00:50Z,,f2b30314bec98ffc7bc290dbb4\
    fe7c6f6f339fe5bb942a42c3697243b5dae438,\nentry,aqua,3,1,lead,8.00,mg/L,ann,,1970-01-01T00:0\
    0:50Z,,,\nsignature,aqua,3,1,,authorship,,ann,Ann \
    Ames,1970-01-01T00:01:00Z,,f2b30314bec98ffc7bc290dbb4fe7c6f6f339fe5bb942a42c3697243b5dae438\
    ,c958842405e4dedad83291e521af7dc1ec5c69e79f2137d1a30082be372a6ec3\nsignature,aqua,3,1,,revi\
    ew,,bob,Bob Bell,1970-01-01T00:01:10Z,,f2b30314bec98ffc7bc290dbb4fe7c6f6f339fe5bb942a42c369\
    7243b5dae438,701a4e814a22733d036a2f159ebd38629c7d16b56dcfc1d8ba96b3336d233323\nend,aqua,3,3\
    ,3,3,,,,,,,\n",
};

pub(crate) static ROWS_AFTER_COPY: &[u8; 64] = b"\
    ecf11f038c66eb116dc597c5cdfb689133247ab49cb57f90f5f9a743592e4004";

/// The first of the eight random words of the founding.
pub(crate) static FOUNDING_FIRST: u32 = 10008;

/// Its body.
pub(crate) static FOUNDING: &[u8] = b"\
    {\"founders\":[{\"code\":\"ann\",\"name\":\"Ann Ames\",\"password\":\"correct horse \
    1\"},{\"code\":\"bob\",\"name\":\"Bob Bell\",\"password\":\"correct horse \
    2\"},{\"code\":\"cid\",\"name\":\"Cid Cole\",\"password\":\"correct horse \
    3\"}],\"name\":\"Cider Lab\"}";

pub(crate) static ROWS_AFTER_FOUNDING: &[u8; 64] = b"\
    35908a0aa1cd75a167e856adca2f46bc40b9aafa354b9333ee29684873b297ef";

/// The digest of what no rows say.
pub(crate) static NO_ROWS: &[u8; 64] = b"\
    1a51c711321b52af153fcde9070dd56b045a65c6de55913dabe1adf570feaf1b";
