//! What is asked from one beginning, each story by itself, and the replies, by `tests/model/disked.py`.
use crate::exchanges::Exchange;

/// The first word of the token of dan.
pub static TOKEN_OF_DAN: u32 = 1240;

/// The first word of the token of ann.
pub static TOKEN_OF_ANN: u32 = 1016;

/// A story: a second value wants a reason and both stay.
pub static A_SECOND_VALUE_WANTS_A_REASON_AND_BOTH_STAY: [Exchange; 3] = [
    Exchange {
        seconds: 1200,
        first: 10008,
        request: b"\
        POST /labs/aqua/entries HTTP/1.1\r\nHost: d\r\nAuthorization: LabSession \
        00000000000004d800000000000004d900000000000004da00000000000004db\r\nContent-Length: 53\r\n\
        \r\n{\"record\":1,\"key\":\"lead\",\"value\":\"7.5\",\"unit\":\"mg/L\"}",
        reply: b"\
        HTTP/1.1 400 Bad Request\r\nDate: Thu, 01 Jan 1970 00:20:00 GMT\r\nContent-Type: \
        application/json\r\nContent-Length: 37\r\nConnection: close\r\n\r\n\
        {\"error\":\"reason_wanted\",\"number\":47}",
    },
    Exchange {
        seconds: 1200,
        first: 10016,
        request: b"\
        POST /labs/aqua/entries HTTP/1.1\r\nHost: d\r\nAuthorization: LabSession \
        00000000000004d800000000000004d900000000000004da00000000000004db\r\nContent-Length: 78\r\n\
        \r\n{\"record\":1,\"key\":\"lead\",\"value\":\"7.5\",\"unit\":\"mg/L\",\"reason\":\"misrea\
        d scale\"}",
        reply: b"\
        HTTP/1.1 200 OK\r\nDate: Thu, 01 Jan 1970 00:20:00 GMT\r\nContent-Type: \
        application/json\r\nContent-Length: 109\r\nConnection: close\r\n\r\n\
        {\"digest\":\"514f6819fde4d608fae3338da6d195404d3c9da170d5da21bc811b4d4be78d79\",\"record\"\
        :1,\"rows\":2,\"version\":1}",
    },
    Exchange {
        seconds: 1200,
        first: 10024,
        request: b"\
        GET /labs/aqua/records/1/versions/1 HTTP/1.1\r\nHost: d\r\nAuthorization: LabSession \
        00000000000004d800000000000004d900000000000004da00000000000004db\r\n\r\n",
        reply: b"\
        HTTP/1.1 200 OK\r\nDate: Thu, 01 Jan 1970 00:20:00 GMT\r\nContent-Type: \
        application/json\r\nContent-Length: 564\r\nConnection: close\r\n\r\n\
        {\"altered\":[\"lead\"],\"approval\":false,\"digest\":\"514f6819fde4d608fae3338da6d195404d3\
        c9da170d5da21bc811b4d4be78d79\",\"form\":\"water\",\"form_version\":1,\"format\":2,\"moment\
        \":\"1970-01-01T00:16:40Z\",\"opener\":\"dan\",\"reason\":\"\",\"record\":1,\"rows\":[{\"ke\
        y\":\"lead\",\"moment\":\"1970-01-01T00:18:20Z\",\"person\":\"dan\",\"reason\":\"\",\"unit\
        \":\"mg/L\",\"value\":\"7.50\"},{\"key\":\"lead\",\"moment\":\"1970-01-01T00:20:00Z\",\"per\
        son\":\"dan\",\"reason\":\"misread scale\",\"unit\":\"mg/L\",\"value\":\"7.5\"}],\"sample\"\
        :\"S1\",\"signatures\":[],\"state\":\"open\",\"values\":[{\"key\":\"lead\",\"unit\":\"mg/L\
        \",\"value\":\"7.5\"}],\"version\":1}",
    },
];

/// A story: the first signing takes the code and a second person releases.
pub static THE_FIRST_SIGNING_TAKES_THE_CODE_AND_A_SECOND_PERSON_RELEASES: [Exchange; 7] = [
    Exchange {
        seconds: 1300,
        first: 10008,
        request: b"\
        POST /labs/aqua/signatures HTTP/1.1\r\nHost: d\r\nAuthorization: LabSession \
        00000000000004d800000000000004d900000000000004da00000000000004db\r\nContent-Length: 151\r\n\
        \r\n{\"record\":1,\"version\":1,\"digest\":\"79610b0b80020b06ccc32eb56d5e2930ad6cea239d3256\
        9de11013459ebf2b0c\",\"meaning\":\"authorship\",\"password\":\"dan password 1\"}",
        reply: b"\
        HTTP/1.1 403 Forbidden\r\nDate: Thu, 01 Jan 1970 00:21:40 GMT\r\nContent-Type: \
        application/json\r\nContent-Length: 35\r\nConnection: close\r\n\r\n\
        {\"error\":\"code_wanted\",\"number\":57}",
    },
    Exchange {
        seconds: 1300,
        first: 10016,
        request: b"\
        POST /labs/aqua/signatures HTTP/1.1\r\nHost: d\r\nAuthorization: LabSession \
        00000000000004d800000000000004d900000000000004da00000000000004db\r\nContent-Length: 164\r\n\
        \r\n{\"record\":1,\"version\":1,\"digest\":\"79610b0b80020b06ccc32eb56d5e2930ad6cea239d3256\
        9de11013459ebf2b0c\",\"meaning\":\"authorship\",\"password\":\"dan password \
        1\",\"code\":\"dan\"}",
        reply: b"\
        HTTP/1.1 200 OK\r\nDate: Thu, 01 Jan 1970 00:21:40 GMT\r\nContent-Type: \
        application/json\r\nContent-Length: 240\r\nConnection: close\r\n\r\n\
        {\"digest\":\"79610b0b80020b06ccc32eb56d5e2930ad6cea239d32569de11013459ebf2b0c\",\"meaning\
        \":\"authorship\",\"moment\":\"1970-01-01T00:21:40Z\",\"name\":\"Dan \
        Day\",\"seal\":\"4b8b1847d87f588306a1ea4aef56c05de05085d45e71883f1df448a3ec8b1333\",\"state\
        \":\"signed\"}",
    },
    Exchange {
        seconds: 1310,
        first: 10024,
        request: b"\
        POST /labs/aqua/open HTTP/1.1\r\nHost: d\r\nContent-Length: 42\r\n\r\n\
        {\"code\":\"eve\",\"password\":\"eve password 1\"}",
        reply: b"\
        HTTP/1.1 200 OK\r\nDate: Thu, 01 Jan 1970 00:21:50 GMT\r\nContent-Type: \
        application/json\r\nContent-Length: 100\r\nConnection: close\r\n\r\n\
        {\"due\":false,\"session\":9,\"token\":\"00000000000027280000000000002729000000000000272a00\
        0000000000272b\"}",
    },
    Exchange {
        seconds: 1320,
        first: 10032,
        request: b"\
        POST /labs/aqua/signatures HTTP/1.1\r\nHost: d\r\nAuthorization: LabSession \
        00000000000027280000000000002729000000000000272a000000000000272b\r\nContent-Length: 160\r\n\
        \r\n{\"record\":1,\"version\":1,\"digest\":\"79610b0b80020b06ccc32eb56d5e2930ad6cea239d3256\
        9de11013459ebf2b0c\",\"meaning\":\"review\",\"password\":\"eve password \
        1\",\"code\":\"eve\"}",
        reply: b"\
        HTTP/1.1 200 OK\r\nDate: Thu, 01 Jan 1970 00:22:00 GMT\r\nContent-Type: \
        application/json\r\nContent-Length: 238\r\nConnection: close\r\n\r\n\
        {\"digest\":\"79610b0b80020b06ccc32eb56d5e2930ad6cea239d32569de11013459ebf2b0c\",\"meaning\
        \":\"review\",\"moment\":\"1970-01-01T00:22:00Z\",\"name\":\"Eve \
        Ems\",\"seal\":\"a4a3e8947662ba782c2bb55479fc44730e6a9e13777f6933972072adc907f4d0\",\"state\
        \":\"released\"}",
    },
    Exchange {
        seconds: 1330,
        first: 10040,
        request: b"\
        POST /labs/aqua/records HTTP/1.1\r\nHost: d\r\nAuthorization: LabSession \
        00000000000004d800000000000004d900000000000004da00000000000004db\r\nContent-Length: 30\r\n\
        \r\n{\"form\":\"water\",\"sample\":\"S2\"}",
        reply: b"\
        HTTP/1.1 200 OK\r\nDate: Thu, 01 Jan 1970 00:22:10 GMT\r\nContent-Type: \
        application/json\r\nContent-Length: 24\r\nConnection: close\r\n\r\n\
        {\"record\":2,\"version\":1}",
    },
    Exchange {
        seconds: 1330,
        first: 10048,
        request: b"\
        POST /labs/aqua/entries HTTP/1.1\r\nHost: d\r\nAuthorization: LabSession \
        00000000000004d800000000000004d900000000000004da00000000000004db\r\nContent-Length: 54\r\n\
        \r\n{\"record\":2,\"key\":\"lead\",\"value\":\"7.50\",\"unit\":\"mg/L\"}",
        reply: b"\
        HTTP/1.1 200 OK\r\nDate: Thu, 01 Jan 1970 00:22:10 GMT\r\nContent-Type: \
        application/json\r\nContent-Length: 109\r\nConnection: close\r\n\r\n\
        {\"digest\":\"a93df7489561b819d7cd8bf01f5924df1fcd309b81909aed0cef021296bb5b86\",\"record\"\
        :2,\"rows\":1,\"version\":1}",
    },
    Exchange {
        seconds: 1340,
        first: 10056,
        request: b"\
        POST /labs/aqua/signatures HTTP/1.1\r\nHost: d\r\nAuthorization: LabSession \
        00000000000004d800000000000004d900000000000004da00000000000004db\r\nContent-Length: 151\r\n\
        \r\n{\"record\":2,\"version\":1,\"digest\":\"a93df7489561b819d7cd8bf01f5924df1fcd309b81909a\
        ed0cef021296bb5b86\",\"meaning\":\"authorship\",\"password\":\"dan password 1\"}",
        reply: b"\
        HTTP/1.1 200 OK\r\nDate: Thu, 01 Jan 1970 00:22:20 GMT\r\nContent-Type: \
        application/json\r\nContent-Length: 240\r\nConnection: close\r\n\r\n\
        {\"digest\":\"a93df7489561b819d7cd8bf01f5924df1fcd309b81909aed0cef021296bb5b86\",\"meaning\
        \":\"authorship\",\"moment\":\"1970-01-01T00:22:20Z\",\"name\":\"Dan \
        Day\",\"seal\":\"0967aebb8eb6ca91480253081a519c1b199e8f9909b8a16ea0ecf5638aec3dea\",\"state\
        \":\"signed\"}",
    },
];

/// A story: a session rests for nine hundred seconds.
pub static A_SESSION_RESTS_FOR_NINE_HUNDRED_SECONDS: [Exchange; 4] = [
    Exchange {
        seconds: 1250,
        first: 10008,
        request: b"\
        POST /labs/aqua/records HTTP/1.1\r\nHost: d\r\nAuthorization: LabSession \
        00000000000004d800000000000004d900000000000004da00000000000004db\r\nContent-Length: 30\r\n\
        \r\n{\"form\":\"water\",\"sample\":\"S2\"}",
        reply: b"\
        HTTP/1.1 200 OK\r\nDate: Thu, 01 Jan 1970 00:20:50 GMT\r\nContent-Type: \
        application/json\r\nContent-Length: 24\r\nConnection: close\r\n\r\n\
        {\"record\":2,\"version\":1}",
    },
    Exchange {
        seconds: 1250,
        first: 10016,
        request: b"\
        POST /labs/aqua/entries HTTP/1.1\r\nHost: d\r\nAuthorization: LabSession \
        00000000000004d800000000000004d900000000000004da00000000000004db\r\nContent-Length: 54\r\n\
        \r\n{\"record\":2,\"key\":\"lead\",\"value\":\"7.50\",\"unit\":\"mg/L\"}",
        reply: b"\
        HTTP/1.1 200 OK\r\nDate: Thu, 01 Jan 1970 00:20:50 GMT\r\nContent-Type: \
        application/json\r\nContent-Length: 109\r\nConnection: close\r\n\r\n\
        {\"digest\":\"711bd1cf4f8bef0938006c1dfe01ecebe0c092a27fcdf8f3c5b35fd5b457b14b\",\"record\"\
        :2,\"rows\":1,\"version\":1}",
    },
    Exchange {
        seconds: 1300,
        first: 10024,
        request: b"\
        POST /labs/aqua/signatures HTTP/1.1\r\nHost: d\r\nAuthorization: LabSession \
        00000000000004d800000000000004d900000000000004da00000000000004db\r\nContent-Length: 164\r\n\
        \r\n{\"record\":1,\"version\":1,\"digest\":\"79610b0b80020b06ccc32eb56d5e2930ad6cea239d3256\
        9de11013459ebf2b0c\",\"meaning\":\"authorship\",\"password\":\"dan password \
        1\",\"code\":\"dan\"}",
        reply: b"\
        HTTP/1.1 200 OK\r\nDate: Thu, 01 Jan 1970 00:21:40 GMT\r\nContent-Type: \
        application/json\r\nContent-Length: 240\r\nConnection: close\r\n\r\n\
        {\"digest\":\"79610b0b80020b06ccc32eb56d5e2930ad6cea239d32569de11013459ebf2b0c\",\"meaning\
        \":\"authorship\",\"moment\":\"1970-01-01T00:21:40Z\",\"name\":\"Dan \
        Day\",\"seal\":\"4b8b1847d87f588306a1ea4aef56c05de05085d45e71883f1df448a3ec8b1333\",\"state\
        \":\"signed\"}",
    },
    Exchange {
        seconds: 2200,
        first: 10032,
        request: b"\
        POST /labs/aqua/signatures HTTP/1.1\r\nHost: d\r\nAuthorization: LabSession \
        00000000000004d800000000000004d900000000000004da00000000000004db\r\nContent-Length: 151\r\n\
        \r\n{\"record\":2,\"version\":1,\"digest\":\"711bd1cf4f8bef0938006c1dfe01ecebe0c092a27fcdf8\
        f3c5b35fd5b457b14b\",\"meaning\":\"authorship\",\"password\":\"dan password 1\"}",
        reply: b"\
        HTTP/1.1 200 OK\r\nDate: Thu, 01 Jan 1970 00:36:40 GMT\r\nContent-Type: \
        application/json\r\nContent-Length: 240\r\nConnection: close\r\n\r\n\
        {\"digest\":\"711bd1cf4f8bef0938006c1dfe01ecebe0c092a27fcdf8f3c5b35fd5b457b14b\",\"meaning\
        \":\"authorship\",\"moment\":\"1970-01-01T00:36:40Z\",\"name\":\"Dan \
        Day\",\"seal\":\"aa0a043fa2fa56403139b798a948fe9dc5506f4e5b306c35ec9cfba4e41575cb\",\"state\
        \":\"signed\"}",
    },
];

/// A story: and not for a second more.
pub static AND_NOT_FOR_A_SECOND_MORE: [Exchange; 4] = [
    Exchange {
        seconds: 1250,
        first: 10008,
        request: b"\
        POST /labs/aqua/records HTTP/1.1\r\nHost: d\r\nAuthorization: LabSession \
        00000000000004d800000000000004d900000000000004da00000000000004db\r\nContent-Length: 30\r\n\
        \r\n{\"form\":\"water\",\"sample\":\"S2\"}",
        reply: b"\
        HTTP/1.1 200 OK\r\nDate: Thu, 01 Jan 1970 00:20:50 GMT\r\nContent-Type: \
        application/json\r\nContent-Length: 24\r\nConnection: close\r\n\r\n\
        {\"record\":2,\"version\":1}",
    },
    Exchange {
        seconds: 1250,
        first: 10016,
        request: b"\
        POST /labs/aqua/entries HTTP/1.1\r\nHost: d\r\nAuthorization: LabSession \
        00000000000004d800000000000004d900000000000004da00000000000004db\r\nContent-Length: 54\r\n\
        \r\n{\"record\":2,\"key\":\"lead\",\"value\":\"7.50\",\"unit\":\"mg/L\"}",
        reply: b"\
        HTTP/1.1 200 OK\r\nDate: Thu, 01 Jan 1970 00:20:50 GMT\r\nContent-Type: \
        application/json\r\nContent-Length: 109\r\nConnection: close\r\n\r\n\
        {\"digest\":\"711bd1cf4f8bef0938006c1dfe01ecebe0c092a27fcdf8f3c5b35fd5b457b14b\",\"record\"\
        :2,\"rows\":1,\"version\":1}",
    },
    Exchange {
        seconds: 1300,
        first: 10024,
        request: b"\
        POST /labs/aqua/signatures HTTP/1.1\r\nHost: d\r\nAuthorization: LabSession \
        00000000000004d800000000000004d900000000000004da00000000000004db\r\nContent-Length: 164\r\n\
        \r\n{\"record\":1,\"version\":1,\"digest\":\"79610b0b80020b06ccc32eb56d5e2930ad6cea239d3256\
        9de11013459ebf2b0c\",\"meaning\":\"authorship\",\"password\":\"dan password \
        1\",\"code\":\"dan\"}",
        reply: b"\
        HTTP/1.1 200 OK\r\nDate: Thu, 01 Jan 1970 00:21:40 GMT\r\nContent-Type: \
        application/json\r\nContent-Length: 240\r\nConnection: close\r\n\r\n\
        {\"digest\":\"79610b0b80020b06ccc32eb56d5e2930ad6cea239d32569de11013459ebf2b0c\",\"meaning\
        \":\"authorship\",\"moment\":\"1970-01-01T00:21:40Z\",\"name\":\"Dan \
        Day\",\"seal\":\"4b8b1847d87f588306a1ea4aef56c05de05085d45e71883f1df448a3ec8b1333\",\"state\
        \":\"signed\"}",
    },
    Exchange {
        seconds: 2201,
        first: 10032,
        request: b"\
        POST /labs/aqua/signatures HTTP/1.1\r\nHost: d\r\nAuthorization: LabSession \
        00000000000004d800000000000004d900000000000004da00000000000004db\r\nContent-Length: 151\r\n\
        \r\n{\"record\":2,\"version\":1,\"digest\":\"711bd1cf4f8bef0938006c1dfe01ecebe0c092a27fcdf8\
        f3c5b35fd5b457b14b\",\"meaning\":\"authorship\",\"password\":\"dan password 1\"}",
        reply: b"\
        HTTP/1.1 401 Unauthorized\r\nDate: Thu, 01 Jan 1970 00:36:41 GMT\r\nContent-Type: \
        application/json\r\nContent-Length: 34\r\nConnection: close\r\nWWW-Authenticate: \
        LabSession\r\n\r\n{\"error\":\"no_session\",\"number\":22}",
    },
];

/// A story: who entered a row signs as author alone.
pub static WHO_ENTERED_A_ROW_SIGNS_AS_AUTHOR_ALONE: [Exchange; 8] = [
    Exchange {
        seconds: 1190,
        first: 10008,
        request: b"\
        POST /labs/aqua/open HTTP/1.1\r\nHost: d\r\nContent-Length: 42\r\n\r\n\
        {\"code\":\"eve\",\"password\":\"eve password 1\"}",
        reply: b"\
        HTTP/1.1 200 OK\r\nDate: Thu, 01 Jan 1970 00:19:50 GMT\r\nContent-Type: \
        application/json\r\nContent-Length: 100\r\nConnection: close\r\n\r\n\
        {\"due\":false,\"session\":9,\"token\":\"00000000000027180000000000002719000000000000271a00\
        0000000000271b\"}",
    },
    Exchange {
        seconds: 1190,
        first: 10016,
        request: b"\
        POST /labs/aqua/open HTTP/1.1\r\nHost: d\r\nContent-Length: 42\r\n\r\n\
        {\"code\":\"fay\",\"password\":\"fay password 1\"}",
        reply: b"\
        HTTP/1.1 200 OK\r\nDate: Thu, 01 Jan 1970 00:19:50 GMT\r\nContent-Type: \
        application/json\r\nContent-Length: 101\r\nConnection: close\r\n\r\n\
        {\"due\":false,\"session\":10,\"token\":\"0000000000002720000000000000272100000000000027220\
        000000000002723\"}",
    },
    Exchange {
        seconds: 1200,
        first: 10024,
        request: b"\
        POST /labs/aqua/signatures HTTP/1.1\r\nHost: d\r\nAuthorization: LabSession \
        00000000000027180000000000002719000000000000271a000000000000271b\r\nContent-Length: 164\r\n\
        \r\n{\"record\":1,\"version\":1,\"digest\":\"79610b0b80020b06ccc32eb56d5e2930ad6cea239d3256\
        9de11013459ebf2b0c\",\"meaning\":\"authorship\",\"password\":\"eve password \
        1\",\"code\":\"eve\"}",
        reply: b"\
        HTTP/1.1 403 Forbidden\r\nDate: Thu, 01 Jan 1970 00:20:00 GMT\r\nContent-Type: \
        application/json\r\nContent-Length: 34\r\nConnection: close\r\n\r\n\
        {\"error\":\"not_author\",\"number\":55}",
    },
    Exchange {
        seconds: 1210,
        first: 10032,
        request: b"\
        POST /labs/aqua/entries HTTP/1.1\r\nHost: d\r\nAuthorization: LabSession \
        00000000000027180000000000002719000000000000271a000000000000271b\r\nContent-Length: 51\r\n\
        \r\n{\"record\":1,\"key\":\"note\",\"value\":\"clear\",\"unit\":\"\"}",
        reply: b"\
        HTTP/1.1 200 OK\r\nDate: Thu, 01 Jan 1970 00:20:10 GMT\r\nContent-Type: \
        application/json\r\nContent-Length: 109\r\nConnection: close\r\n\r\n\
        {\"digest\":\"7bcf3ecb0c9fee7c1f3f3470bc4cdd6131cbd46a0f3d24ac064522968eb735ab\",\"record\"\
        :1,\"rows\":2,\"version\":1}",
    },
    Exchange {
        seconds: 1220,
        first: 10040,
        request: b"\
        POST /labs/aqua/signatures HTTP/1.1\r\nHost: d\r\nAuthorization: LabSession \
        00000000000004d800000000000004d900000000000004da00000000000004db\r\nContent-Length: 164\r\n\
        \r\n{\"record\":1,\"version\":1,\"digest\":\"7bcf3ecb0c9fee7c1f3f3470bc4cdd6131cbd46a0f3d24\
        ac064522968eb735ab\",\"meaning\":\"authorship\",\"password\":\"dan password \
        1\",\"code\":\"dan\"}",
        reply: b"\
        HTTP/1.1 200 OK\r\nDate: Thu, 01 Jan 1970 00:20:20 GMT\r\nContent-Type: \
        application/json\r\nContent-Length: 240\r\nConnection: close\r\n\r\n\
        {\"digest\":\"7bcf3ecb0c9fee7c1f3f3470bc4cdd6131cbd46a0f3d24ac064522968eb735ab\",\"meaning\
        \":\"authorship\",\"moment\":\"1970-01-01T00:20:20Z\",\"name\":\"Dan \
        Day\",\"seal\":\"272c9b6033af5bf4601bc400300be0ed9f05358d453e83cb12547b136262ccec\",\"state\
        \":\"signed\"}",
    },
    Exchange {
        seconds: 1230,
        first: 10048,
        request: b"\
        POST /labs/aqua/signatures HTTP/1.1\r\nHost: d\r\nAuthorization: LabSession \
        00000000000004d800000000000004d900000000000004da00000000000004db\r\nContent-Length: 147\r\n\
        \r\n{\"record\":1,\"version\":1,\"digest\":\"7bcf3ecb0c9fee7c1f3f3470bc4cdd6131cbd46a0f3d24\
        ac064522968eb735ab\",\"meaning\":\"review\",\"password\":\"dan password 1\"}",
        reply: b"\
        HTTP/1.1 403 Forbidden\r\nDate: Thu, 01 Jan 1970 00:20:30 GMT\r\nContent-Type: \
        application/json\r\nContent-Length: 48\r\nConnection: close\r\n\r\n\
        {\"error\":\"role_wanted\",\"number\":24,\"rule\":\"P16\"}",
    },
    Exchange {
        seconds: 1240,
        first: 10056,
        request: b"\
        POST /labs/aqua/signatures HTTP/1.1\r\nHost: d\r\nAuthorization: LabSession \
        00000000000027180000000000002719000000000000271a000000000000271b\r\nContent-Length: 160\r\n\
        \r\n{\"record\":1,\"version\":1,\"digest\":\"7bcf3ecb0c9fee7c1f3f3470bc4cdd6131cbd46a0f3d24\
        ac064522968eb735ab\",\"meaning\":\"review\",\"password\":\"eve password \
        1\",\"code\":\"eve\"}",
        reply: b"\
        HTTP/1.1 403 Forbidden\r\nDate: Thu, 01 Jan 1970 00:20:40 GMT\r\nContent-Type: \
        application/json\r\nContent-Length: 32\r\nConnection: close\r\n\r\n\
        {\"error\":\"own_work\",\"number\":54}",
    },
    Exchange {
        seconds: 1250,
        first: 10064,
        request: b"\
        POST /labs/aqua/signatures HTTP/1.1\r\nHost: d\r\nAuthorization: LabSession \
        0000000000002720000000000000272100000000000027220000000000002723\r\nContent-Length: 160\r\n\
        \r\n{\"record\":1,\"version\":1,\"digest\":\"7bcf3ecb0c9fee7c1f3f3470bc4cdd6131cbd46a0f3d24\
        ac064522968eb735ab\",\"meaning\":\"review\",\"password\":\"fay password \
        1\",\"code\":\"fay\"}",
        reply: b"\
        HTTP/1.1 200 OK\r\nDate: Thu, 01 Jan 1970 00:20:50 GMT\r\nContent-Type: \
        application/json\r\nContent-Length: 238\r\nConnection: close\r\n\r\n\
        {\"digest\":\"7bcf3ecb0c9fee7c1f3f3470bc4cdd6131cbd46a0f3d24ac064522968eb735ab\",\"meaning\
        \":\"review\",\"moment\":\"1970-01-01T00:20:50Z\",\"name\":\"Fay \
        Fox\",\"seal\":\"2268f2b52ed97f8c18f5c77970afd2b8f87a8d8665a1ce090a5e3fcd97b3bdda\",\"state\
        \":\"released\"}",
    },
];

/// A story: an author who is a reviewer too does not review.
pub static AN_AUTHOR_WHO_IS_A_REVIEWER_TOO_DOES_NOT_REVIEW: [Exchange; 5] = [
    Exchange {
        seconds: 1190,
        first: 10008,
        request: b"\
        POST /labs/aqua/open HTTP/1.1\r\nHost: d\r\nContent-Length: 42\r\n\r\n\
        {\"code\":\"eve\",\"password\":\"eve password 1\"}",
        reply: b"\
        HTTP/1.1 200 OK\r\nDate: Thu, 01 Jan 1970 00:19:50 GMT\r\nContent-Type: \
        application/json\r\nContent-Length: 100\r\nConnection: close\r\n\r\n\
        {\"due\":false,\"session\":9,\"token\":\"00000000000027180000000000002719000000000000271a00\
        0000000000271b\"}",
    },
    Exchange {
        seconds: 1200,
        first: 10016,
        request: b"\
        POST /labs/aqua/entries HTTP/1.1\r\nHost: d\r\nAuthorization: LabSession \
        00000000000027180000000000002719000000000000271a000000000000271b\r\nContent-Length: 51\r\n\
        \r\n{\"record\":1,\"key\":\"note\",\"value\":\"clear\",\"unit\":\"\"}",
        reply: b"\
        HTTP/1.1 200 OK\r\nDate: Thu, 01 Jan 1970 00:20:00 GMT\r\nContent-Type: \
        application/json\r\nContent-Length: 109\r\nConnection: close\r\n\r\n\
        {\"digest\":\"4ecdc849fe272bdabcb797749d30957c2ea8942eb02019117a8d90b12c563743\",\"record\"\
        :1,\"rows\":2,\"version\":1}",
    },
    Exchange {
        seconds: 1210,
        first: 10024,
        request: b"\
        POST /labs/aqua/signatures HTTP/1.1\r\nHost: d\r\nAuthorization: LabSession \
        00000000000027180000000000002719000000000000271a000000000000271b\r\nContent-Length: 164\r\n\
        \r\n{\"record\":1,\"version\":1,\"digest\":\"4ecdc849fe272bdabcb797749d30957c2ea8942eb02019\
        117a8d90b12c563743\",\"meaning\":\"authorship\",\"password\":\"eve password \
        1\",\"code\":\"eve\"}",
        reply: b"\
        HTTP/1.1 200 OK\r\nDate: Thu, 01 Jan 1970 00:20:10 GMT\r\nContent-Type: \
        application/json\r\nContent-Length: 240\r\nConnection: close\r\n\r\n\
        {\"digest\":\"4ecdc849fe272bdabcb797749d30957c2ea8942eb02019117a8d90b12c563743\",\"meaning\
        \":\"authorship\",\"moment\":\"1970-01-01T00:20:10Z\",\"name\":\"Eve \
        Ems\",\"seal\":\"c53675ff70d97a13b75fbfa2df9c4b013a30a90e47279f5389c333a849711ce6\",\"state\
        \":\"signed\"}",
    },
    Exchange {
        seconds: 1220,
        first: 10032,
        request: b"\
        POST /labs/aqua/signatures HTTP/1.1\r\nHost: d\r\nAuthorization: LabSession \
        00000000000027180000000000002719000000000000271a000000000000271b\r\nContent-Length: 147\r\n\
        \r\n{\"record\":1,\"version\":1,\"digest\":\"4ecdc849fe272bdabcb797749d30957c2ea8942eb02019\
        117a8d90b12c563743\",\"meaning\":\"review\",\"password\":\"eve password 1\"}",
        reply: b"\
        HTTP/1.1 403 Forbidden\r\nDate: Thu, 01 Jan 1970 00:20:20 GMT\r\nContent-Type: \
        application/json\r\nContent-Length: 32\r\nConnection: close\r\n\r\n\
        {\"error\":\"own_work\",\"number\":54}",
    },
    Exchange {
        seconds: 1230,
        first: 10040,
        request: b"\
        POST /labs/aqua/signatures HTTP/1.1\r\nHost: d\r\nAuthorization: LabSession \
        00000000000027180000000000002719000000000000271a000000000000271b\r\nContent-Length: 168\r\n\
        \r\n{\"record\":1,\"version\":1,\"digest\":\"4ecdc849fe272bdabcb797749d30957c2ea8942eb02019\
        117a8d90b12c563743\",\"meaning\":\"rejection\",\"password\":\"eve password \
        1\",\"reason\":\"not so\"}",
        reply: b"\
        HTTP/1.1 403 Forbidden\r\nDate: Thu, 01 Jan 1970 00:20:30 GMT\r\nContent-Type: \
        application/json\r\nContent-Length: 32\r\nConnection: close\r\n\r\n\
        {\"error\":\"own_work\",\"number\":54}",
    },
];

/// A story: what is released is amended and nothing overwritten.
pub static WHAT_IS_RELEASED_IS_AMENDED_AND_NOTHING_OVERWRITTEN: [Exchange; 15] = [
    Exchange {
        seconds: 1300,
        first: 10008,
        request: b"\
        POST /labs/aqua/signatures HTTP/1.1\r\nHost: d\r\nAuthorization: LabSession \
        00000000000004d800000000000004d900000000000004da00000000000004db\r\nContent-Length: 164\r\n\
        \r\n{\"record\":1,\"version\":1,\"digest\":\"79610b0b80020b06ccc32eb56d5e2930ad6cea239d3256\
        9de11013459ebf2b0c\",\"meaning\":\"authorship\",\"password\":\"dan password \
        1\",\"code\":\"dan\"}",
        reply: b"\
        HTTP/1.1 200 OK\r\nDate: Thu, 01 Jan 1970 00:21:40 GMT\r\nContent-Type: \
        application/json\r\nContent-Length: 240\r\nConnection: close\r\n\r\n\
        {\"digest\":\"79610b0b80020b06ccc32eb56d5e2930ad6cea239d32569de11013459ebf2b0c\",\"meaning\
        \":\"authorship\",\"moment\":\"1970-01-01T00:21:40Z\",\"name\":\"Dan \
        Day\",\"seal\":\"4b8b1847d87f588306a1ea4aef56c05de05085d45e71883f1df448a3ec8b1333\",\"state\
        \":\"signed\"}",
    },
    Exchange {
        seconds: 1310,
        first: 10016,
        request: b"\
        POST /labs/aqua/open HTTP/1.1\r\nHost: d\r\nContent-Length: 42\r\n\r\n\
        {\"code\":\"eve\",\"password\":\"eve password 1\"}",
        reply: b"\
        HTTP/1.1 200 OK\r\nDate: Thu, 01 Jan 1970 00:21:50 GMT\r\nContent-Type: \
        application/json\r\nContent-Length: 100\r\nConnection: close\r\n\r\n\
        {\"due\":false,\"session\":9,\"token\":\"00000000000027200000000000002721000000000000272200\
        00000000002723\"}",
    },
    Exchange {
        seconds: 1320,
        first: 10024,
        request: b"\
        POST /labs/aqua/signatures HTTP/1.1\r\nHost: d\r\nAuthorization: LabSession \
        0000000000002720000000000000272100000000000027220000000000002723\r\nContent-Length: 160\r\n\
        \r\n{\"record\":1,\"version\":1,\"digest\":\"79610b0b80020b06ccc32eb56d5e2930ad6cea239d3256\
        9de11013459ebf2b0c\",\"meaning\":\"review\",\"password\":\"eve password \
        1\",\"code\":\"eve\"}",
        reply: b"\
        HTTP/1.1 200 OK\r\nDate: Thu, 01 Jan 1970 00:22:00 GMT\r\nContent-Type: \
        application/json\r\nContent-Length: 238\r\nConnection: close\r\n\r\n\
        {\"digest\":\"79610b0b80020b06ccc32eb56d5e2930ad6cea239d32569de11013459ebf2b0c\",\"meaning\
        \":\"review\",\"moment\":\"1970-01-01T00:22:00Z\",\"name\":\"Eve \
        Ems\",\"seal\":\"a4a3e8947662ba782c2bb55479fc44730e6a9e13777f6933972072adc907f4d0\",\"state\
        \":\"released\"}",
    },
    Exchange {
        seconds: 1400,
        first: 10032,
        request: b"\
        POST /labs/aqua/amendments HTTP/1.1\r\nHost: d\r\nAuthorization: LabSession \
        00000000000004d800000000000004d900000000000004da00000000000004db\r\nContent-Length: 57\r\n\
        \r\n{\"record\":1,\"reason\":\"one decimal is meant\",\"altered\":[]}",
        reply: b"\
        HTTP/1.1 409 Conflict\r\nDate: Thu, 01 Jan 1970 00:23:20 GMT\r\nContent-Type: \
        application/json\r\nContent-Length: 39\r\nConnection: close\r\n\r\n\
        {\"error\":\"nothing_altered\",\"number\":48}",
    },
    Exchange {
        seconds: 1401,
        first: 10040,
        request: b"\
        POST /labs/aqua/amendments HTTP/1.1\r\nHost: d\r\nAuthorization: LabSession \
        00000000000004d800000000000004d900000000000004da00000000000004db\r\nContent-Length: 100\r\n\
        \r\n{\"record\":1,\"reason\":\"one decimal is \
        meant\",\"altered\":[{\"key\":\"lead\",\"value\":\"7.50\",\"unit\":\"mg/L\"}]}",
        reply: b"\
        HTTP/1.1 409 Conflict\r\nDate: Thu, 01 Jan 1970 00:23:21 GMT\r\nContent-Type: \
        application/json\r\nContent-Length: 48\r\nConnection: close\r\n\r\n\
        {\"error\":\"not_altered\",\"key\":\"lead\",\"number\":49}",
    },
    Exchange {
        seconds: 1402,
        first: 10048,
        request: b"\
        POST /labs/aqua/amendments HTTP/1.1\r\nHost: d\r\nAuthorization: LabSession \
        00000000000004d800000000000004d900000000000004da00000000000004db\r\nContent-Length: 67\r\n\
        \r\n{\"record\":1,\"altered\":[{\"key\":\"lead\",\"value\":\"7.5\",\"unit\":\"mg/L\"}]}",
        reply: b"\
        HTTP/1.1 400 Bad Request\r\nDate: Thu, 01 Jan 1970 00:23:22 GMT\r\nContent-Type: \
        application/json\r\nContent-Length: 37\r\nConnection: close\r\n\r\n\
        {\"error\":\"reason_wanted\",\"number\":47}",
    },
    Exchange {
        seconds: 1403,
        first: 10056,
        request: b"\
        POST /labs/aqua/amendments HTTP/1.1\r\nHost: d\r\nAuthorization: LabSession \
        00000000000004d800000000000004d900000000000004da00000000000004db\r\nContent-Length: 99\r\n\
        \r\n{\"record\":1,\"reason\":\"one decimal is \
        meant\",\"altered\":[{\"key\":\"lead\",\"value\":\"7.5\",\"unit\":\"mg/L\"}]}",
        reply: b"\
        HTTP/1.1 200 OK\r\nDate: Thu, 01 Jan 1970 00:23:23 GMT\r\nContent-Type: \
        application/json\r\nContent-Length: 100\r\nConnection: close\r\n\r\n\
        {\"digest\":\"65d79ff2b4f3acdd355305a9302b599ac94b07df0d781b3569a1cd4a1149eaa4\",\"record\"\
        :1,\"version\":2}",
    },
    Exchange {
        seconds: 1404,
        first: 10064,
        request: b"\
        GET /labs/aqua/records/1/versions/1 HTTP/1.1\r\nHost: d\r\nAuthorization: LabSession \
        00000000000004d800000000000004d900000000000004da00000000000004db\r\n\r\n",
        reply: b"\
        HTTP/1.1 200 OK\r\nDate: Thu, 01 Jan 1970 00:23:24 GMT\r\nContent-Type: \
        application/json\r\nContent-Length: 799\r\nConnection: close\r\n\r\n\
        {\"altered\":[\"lead\"],\"approval\":false,\"digest\":\"79610b0b80020b06ccc32eb56d5e2930ad6\
        cea239d32569de11013459ebf2b0c\",\"form\":\"water\",\"form_version\":1,\"format\":2,\"moment\
        \":\"1970-01-01T00:16:40Z\",\"opener\":\"dan\",\"reason\":\"\",\"record\":1,\"rows\":[{\"ke\
        y\":\"lead\",\"moment\":\"1970-01-01T00:18:20Z\",\"person\":\"dan\",\"reason\":\"\",\"unit\
        \":\"mg/L\",\"value\":\"7.50\"}],\"sample\":\"S1\",\"signatures\":[{\"meaning\":\"authorshi\
        p\",\"moment\":\"1970-01-01T00:21:40Z\",\"name\":\"Dan \
        Day\",\"person\":\"dan\",\"reason\":\"\",\"seal\":\"4b8b1847d87f588306a1ea4aef56c05de05085d\
        45e71883f1df448a3ec8b1333\"},{\"meaning\":\"review\",\"moment\":\"1970-01-01T00:22:00Z\",\"\
        name\":\"Eve Ems\",\"person\":\"eve\",\"reason\":\"\",\"seal\":\"a4a3e8947662ba782c2bb55479\
        fc44730e6a9e13777f6933972072adc907f4d0\"}],\"state\":\"released\",\"values\":[{\"key\":\"le\
        ad\",\"unit\":\"mg/L\",\"value\":\"7.50\"}],\"version\":1}",
    },
    Exchange {
        seconds: 1405,
        first: 10072,
        request: b"\
        GET /labs/aqua/records/1/versions/2 HTTP/1.1\r\nHost: d\r\nAuthorization: LabSession \
        00000000000004d800000000000004d900000000000004da00000000000004db\r\n\r\n",
        reply: b"\
        HTTP/1.1 200 OK\r\nDate: Thu, 01 Jan 1970 00:23:25 GMT\r\nContent-Type: \
        application/json\r\nContent-Length: 488\r\nConnection: close\r\n\r\n\
        {\"altered\":[\"lead\"],\"approval\":false,\"digest\":\"65d79ff2b4f3acdd355305a9302b599ac94\
        b07df0d781b3569a1cd4a1149eaa4\",\"form\":\"water\",\"form_version\":1,\"format\":2,\"moment\
        \":\"1970-01-01T00:23:23Z\",\"opener\":\"dan\",\"reason\":\"one decimal is \
        meant\",\"record\":1,\"rows\":[{\"key\":\"lead\",\"moment\":\"1970-01-01T00:23:23Z\",\"pers\
        on\":\"dan\",\"reason\":\"one decimal is meant\",\"unit\":\"mg/L\",\"value\":\"7.5\"}],\"sa\
        mple\":\"S1\",\"signatures\":[],\"state\":\"open\",\"values\":[{\"key\":\"lead\",\"unit\":\
        \"mg/L\",\"value\":\"7.5\"}],\"version\":2}",
    },
    Exchange {
        seconds: 1406,
        first: 10080,
        request: b"\
        POST /labs/aqua/amendments HTTP/1.1\r\nHost: d\r\nAuthorization: LabSession \
        00000000000004d800000000000004d900000000000004da00000000000004db\r\nContent-Length: 89\r\n\
        \r\n{\"record\":1,\"reason\":\"once more\",\"altered\":[{\"key\":\"lead\",\"value\":\"7.50\
        \",\"unit\":\"mg/L\"}]}",
        reply: b"\
        HTTP/1.1 409 Conflict\r\nDate: Thu, 01 Jan 1970 00:23:26 GMT\r\nContent-Type: \
        application/json\r\nContent-Length: 38\r\nConnection: close\r\n\r\n\
        {\"error\":\"amendment_open\",\"number\":50}",
    },
    Exchange {
        seconds: 1410,
        first: 10088,
        request: b"\
        POST /labs/aqua/signatures HTTP/1.1\r\nHost: d\r\nAuthorization: LabSession \
        00000000000004d800000000000004d900000000000004da00000000000004db\r\nContent-Length: 151\r\n\
        \r\n{\"record\":1,\"version\":2,\"digest\":\"79610b0b80020b06ccc32eb56d5e2930ad6cea239d3256\
        9de11013459ebf2b0c\",\"meaning\":\"authorship\",\"password\":\"dan password 1\"}",
        reply: b"\
        HTTP/1.1 409 Conflict\r\nDate: Thu, 01 Jan 1970 00:23:30 GMT\r\nContent-Type: \
        application/json\r\nContent-Length: 112\r\nConnection: close\r\n\r\n\
        {\"digest\":\"65d79ff2b4f3acdd355305a9302b599ac94b07df0d781b3569a1cd4a1149eaa4\",\"error\":\
        \"stale_digest\",\"number\":52}",
    },
    Exchange {
        seconds: 1410,
        first: 10096,
        request: b"\
        POST /labs/aqua/signatures HTTP/1.1\r\nHost: d\r\nAuthorization: LabSession \
        00000000000004d800000000000004d900000000000004da00000000000004db\r\nContent-Length: 151\r\n\
        \r\n{\"record\":1,\"version\":2,\"digest\":\"65d79ff2b4f3acdd355305a9302b599ac94b07df0d781b\
        3569a1cd4a1149eaa4\",\"meaning\":\"authorship\",\"password\":\"dan password 1\"}",
        reply: b"\
        HTTP/1.1 200 OK\r\nDate: Thu, 01 Jan 1970 00:23:30 GMT\r\nContent-Type: \
        application/json\r\nContent-Length: 240\r\nConnection: close\r\n\r\n\
        {\"digest\":\"65d79ff2b4f3acdd355305a9302b599ac94b07df0d781b3569a1cd4a1149eaa4\",\"meaning\
        \":\"authorship\",\"moment\":\"1970-01-01T00:23:30Z\",\"name\":\"Dan \
        Day\",\"seal\":\"a9c9906e288d929fced5709ec321bcfd4329c5704ef952133fee9697581f2381\",\"state\
        \":\"signed\"}",
    },
    Exchange {
        seconds: 1410,
        first: 10104,
        request: b"\
        POST /labs/aqua/signatures HTTP/1.1\r\nHost: d\r\nAuthorization: LabSession \
        00000000000004d800000000000004d900000000000004da00000000000004db\r\nContent-Length: 151\r\n\
        \r\n{\"record\":1,\"version\":2,\"digest\":\"65d79ff2b4f3acdd355305a9302b599ac94b07df0d781b\
        3569a1cd4a1149eaa4\",\"meaning\":\"authorship\",\"password\":\"dan password 1\"}",
        reply: b"\
        HTTP/1.1 409 Conflict\r\nDate: Thu, 01 Jan 1970 00:23:30 GMT\r\nContent-Type: \
        application/json\r\nContent-Length: 38\r\nConnection: close\r\n\r\n\
        {\"error\":\"already_signed\",\"number\":53}",
    },
    Exchange {
        seconds: 1420,
        first: 10112,
        request: b"\
        POST /labs/aqua/signatures HTTP/1.1\r\nHost: d\r\nAuthorization: LabSession \
        0000000000002720000000000000272100000000000027220000000000002723\r\nContent-Length: 147\r\n\
        \r\n{\"record\":1,\"version\":2,\"digest\":\"65d79ff2b4f3acdd355305a9302b599ac94b07df0d781b\
        3569a1cd4a1149eaa4\",\"meaning\":\"review\",\"password\":\"eve password 1\"}",
        reply: b"\
        HTTP/1.1 200 OK\r\nDate: Thu, 01 Jan 1970 00:23:40 GMT\r\nContent-Type: \
        application/json\r\nContent-Length: 238\r\nConnection: close\r\n\r\n\
        {\"digest\":\"65d79ff2b4f3acdd355305a9302b599ac94b07df0d781b3569a1cd4a1149eaa4\",\"meaning\
        \":\"review\",\"moment\":\"1970-01-01T00:23:40Z\",\"name\":\"Eve \
        Ems\",\"seal\":\"6d4b533307e21280e51ec9823a620840ad9b012ecd93b933b2733ea05f47fa90\",\"state\
        \":\"released\"}",
    },
    Exchange {
        seconds: 1450,
        first: 10120,
        request: b"\
        GET /labs/aqua/records/1 HTTP/1.1\r\nHost: d\r\nAuthorization: LabSession \
        00000000000004d800000000000004d900000000000004da00000000000004db\r\n\r\n",
        reply: b"\
        HTTP/1.1 200 OK\r\nDate: Thu, 01 Jan 1970 00:24:10 GMT\r\nContent-Type: \
        application/json\r\nContent-Length: 301\r\nConnection: close\r\n\r\n\
        {\"current\":2,\"form\":\"water\",\"form_version\":1,\"record\":1,\"sample\":\"S1\",\"versi\
        ons\":[{\"digest\":\"79610b0b80020b06ccc32eb56d5e2930ad6cea239d32569de11013459ebf2b0c\",\"s\
        tate\":\"released\",\"version\":1},{\"digest\":\"65d79ff2b4f3acdd355305a9302b599ac94b07df0d\
        781b3569a1cd4a1149eaa4\",\"state\":\"released\",\"version\":2}]}",
    },
];

/// A story: one form and sample make one record.
pub static ONE_FORM_AND_SAMPLE_MAKE_ONE_RECORD: [Exchange; 6] = [
    Exchange {
        seconds: 1200,
        first: 10008,
        request: b"\
        POST /labs/aqua/records HTTP/1.1\r\nHost: d\r\nAuthorization: LabSession \
        00000000000004d800000000000004d900000000000004da00000000000004db\r\nContent-Length: 30\r\n\
        \r\n{\"form\":\"water\",\"sample\":\"S1\"}",
        reply: b"\
        HTTP/1.1 409 Conflict\r\nDate: Thu, 01 Jan 1970 00:20:00 GMT\r\nContent-Type: \
        application/json\r\nContent-Length: 48\r\nConnection: close\r\n\r\n\
        {\"error\":\"record_exists\",\"number\":43,\"record\":1}",
    },
    Exchange {
        seconds: 1200,
        first: 10016,
        request: b"\
        POST /labs/aqua/open HTTP/1.1\r\nHost: d\r\nContent-Length: 42\r\n\r\n\
        {\"code\":\"gus\",\"password\":\"gus password 1\"}",
        reply: b"\
        HTTP/1.1 200 OK\r\nDate: Thu, 01 Jan 1970 00:20:00 GMT\r\nContent-Type: \
        application/json\r\nContent-Length: 100\r\nConnection: close\r\n\r\n\
        {\"due\":false,\"session\":9,\"token\":\"00000000000027200000000000002721000000000000272200\
        00000000002723\"}",
    },
    Exchange {
        seconds: 1200,
        first: 10024,
        request: b"\
        POST /labs/aqua/forms HTTP/1.1\r\nHost: d\r\nAuthorization: LabSession \
        0000000000002720000000000000272100000000000027220000000000002723\r\nContent-Length: 99\r\n\
        \r\n{\"form\":\"water\",\"fields\":[{\"key\":\"note\",\"label\":\"Note\",\"required\":false\
        ,\"kind\":\"text\",\"size\":200}]}",
        reply: b"\
        HTTP/1.1 200 OK\r\nDate: Thu, 01 Jan 1970 00:20:00 GMT\r\nContent-Type: \
        application/json\r\nContent-Length: 28\r\nConnection: close\r\n\r\n\
        {\"form\":\"water\",\"version\":2}",
    },
    Exchange {
        seconds: 1200,
        first: 10032,
        request: b"\
        POST /labs/aqua/records HTTP/1.1\r\nHost: d\r\nAuthorization: LabSession \
        00000000000004d800000000000004d900000000000004da00000000000004db\r\nContent-Length: 30\r\n\
        \r\n{\"form\":\"water\",\"sample\":\"S1\"}",
        reply: b"\
        HTTP/1.1 409 Conflict\r\nDate: Thu, 01 Jan 1970 00:20:00 GMT\r\nContent-Type: \
        application/json\r\nContent-Length: 48\r\nConnection: close\r\n\r\n\
        {\"error\":\"record_exists\",\"number\":43,\"record\":1}",
    },
    Exchange {
        seconds: 1200,
        first: 10040,
        request: b"\
        POST /labs/aqua/records HTTP/1.1\r\nHost: d\r\nAuthorization: LabSession \
        00000000000004d800000000000004d900000000000004da00000000000004db\r\nContent-Length: 30\r\n\
        \r\n{\"form\":\"water\",\"sample\":\"s1\"}",
        reply: b"\
        HTTP/1.1 200 OK\r\nDate: Thu, 01 Jan 1970 00:20:00 GMT\r\nContent-Type: \
        application/json\r\nContent-Length: 24\r\nConnection: close\r\n\r\n\
        {\"record\":2,\"version\":1}",
    },
    Exchange {
        seconds: 1200,
        first: 10048,
        request: b"\
        GET /labs/aqua/records/2 HTTP/1.1\r\nHost: d\r\nAuthorization: LabSession \
        00000000000004d800000000000004d900000000000004da00000000000004db\r\n\r\n",
        reply: b"\
        HTTP/1.1 200 OK\r\nDate: Thu, 01 Jan 1970 00:20:00 GMT\r\nContent-Type: \
        application/json\r\nContent-Length: 188\r\nConnection: close\r\n\r\n\
        {\"current\":1,\"form\":\"water\",\"form_version\":2,\"record\":2,\"sample\":\"s1\",\"versi\
        ons\":[{\"digest\":\"1a4525496c2ab7b5ac5b3cbc08b07f0b07830db2e461fcec5bef7d8fe454c5ee\",\"s\
        tate\":\"open\",\"version\":1}]}",
    },
];

/// A story: a record is opened beside a crowd.
pub static A_RECORD_IS_OPENED_BESIDE_A_CROWD: [Exchange; 2] = [
    Exchange {
        seconds: 1200,
        first: 10008,
        request: b"\
        POST /labs/aqua/records HTTP/1.1\r\nHost: d\r\nAuthorization: LabSession \
        00000000000004d800000000000004d900000000000004da00000000000004db\r\nContent-Length: 30\r\n\
        \r\n{\"form\":\"water\",\"sample\":\"S9\"}",
        reply: b"\
        HTTP/1.1 200 OK\r\nDate: Thu, 01 Jan 1970 00:20:00 GMT\r\nContent-Type: \
        application/json\r\nContent-Length: 24\r\nConnection: close\r\n\r\n\
        {\"record\":2,\"version\":1}",
    },
    Exchange {
        seconds: 1200,
        first: 10016,
        request: b"\
        GET /labs/aqua/records/2 HTTP/1.1\r\nHost: d\r\nAuthorization: LabSession \
        00000000000004d800000000000004d900000000000004da00000000000004db\r\n\r\n",
        reply: b"\
        HTTP/1.1 200 OK\r\nDate: Thu, 01 Jan 1970 00:20:00 GMT\r\nContent-Type: \
        application/json\r\nContent-Length: 188\r\nConnection: close\r\n\r\n\
        {\"current\":1,\"form\":\"water\",\"form_version\":1,\"record\":2,\"sample\":\"S9\",\"versi\
        ons\":[{\"digest\":\"a1018510976937a7934e6ad9119bf73a65051eb4ec56da05bec3a26b0c7d374a\",\"s\
        tate\":\"open\",\"version\":1}]}",
    },
];
