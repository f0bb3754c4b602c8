//! What two clients ask, one after the other, and the replies, by `tests/model/disked.py`.
use lab_tests_rows::Exchange;

/// The first of the eight random words of the founding.
pub(crate) static FOUNDING_FIRST: u32 = 1008;

/// Its body.
pub(crate) static FOUNDING: &[u8] = b"\
    {\"founders\":[{\"code\":\"ann\",\"name\":\"Ann Ames\",\"password\":\"correct horse \
    1\"},{\"code\":\"bob\",\"name\":\"Bob Bell\",\"password\":\"correct horse \
    2\"},{\"code\":\"cid\",\"name\":\"Cid Cole\",\"password\":\"correct horse \
    3\"}],\"name\":\"Aqua Lab\"}";

/// An opening, and a reading with its token.
pub(crate) static SERVED: [Exchange; 2] = [
    Exchange {
        seconds: 100,
        first: 1016,
        request: b"\
        POST /labs/aqua/open HTTP/1.1\r\nHost: d\r\nContent-Length: 43\r\n\r\n\
        {\"code\":\"ann\",\"password\":\"correct horse 1\"}",
        reply: b"\
        HTTP/1.1 200 OK\r\nDate: Thu, 01 Jan 1970 00:01:40 GMT\r\nContent-Type: \
        application/json\r\nContent-Length: 100\r\nConnection: close\r\n\r\n\
        {\"due\":false,\"session\":1,\"token\":\"00000000000003f800000000000003f900000000000003fa00\
        000000000003fb\"}",
    },
    Exchange {
        seconds: 100,
        first: 1024,
        request: b"\
        GET /labs/aqua/persons HTTP/1.1\r\nHost: d\r\nAuthorization: LabSession \
        00000000000003f800000000000003f900000000000003fa00000000000003fb\r\n\r\n",
        reply: b"\
        HTTP/1.1 200 OK\r\nDate: Thu, 01 Jan 1970 00:01:40 GMT\r\nContent-Type: \
        application/json\r\nContent-Length: 283\r\nConnection: close\r\n\r\n\
        {\"persons\":[{\"code\":\"ann\",\"locked\":false,\"name\":\"Ann \
        Ames\",\"retired\":false,\"roles\":[\"administrator\"]},{\"code\":\"bob\",\"locked\":false,\
        \"name\":\"Bob Bell\",\"retired\":false,\"roles\":[\"administrator\"]},{\"code\":\"cid\",\"\
        locked\":false,\"name\":\"Cid Cole\",\"retired\":false,\"roles\":[\"administrator\"]}]}",
    },
];
