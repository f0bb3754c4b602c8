//! The body of a founding, requests, and the whole replies that they should get, by docs/COMMANDS.md and docs/HTTP.md.

pub(crate) const BODY: &[u8] =
    b"{\"founders\":[{\"code\":\"ann\",\"name\":\"N\",\"password\":\"twelve bytes\"},\
    {\"code\":\"bob\",\"name\":\"N\",\"password\":\"twelve bytes\"},\
    {\"code\":\"cid\",\"name\":\"N\",\"password\":\"twelve bytes\"}],\"name\":\"Aqua Lab\"}";

/// An opening changes the laboratory.
pub(crate) const OPEN: &[u8] = b"POST /labs/aqua/open HTTP/1.1\r\nHost: d\r\n\
    Content-Length: 40\r\n\r\n\
    {\"code\":\"ann\",\"password\":\"twelve bytes\"}";

/// What it gets at the first word 9.
pub(crate) const OPEN_REPLY: &[u8] = b"HTTP/1.1 200 OK\r\nDate: Thu, 01 Jan 1970 00:01:40 GMT\r\n\
    Content-Type: application/json\r\nContent-Length: 100\r\nConnection: close\r\n\r\n\
    {\"due\":false,\"session\":1,\"token\":\"0000000000000009000000000000000200000000000000030000000000000004\"}";

pub(crate) const ZINC_CARD: &[u8] = b"GET /labs/zinc HTTP/1.1\r\nHost: d\r\n\r\n";

/// The card of the other laboratory, which bears the same name, in the hundredth second.
pub(crate) const ZINC_CARD_REPLY: &[u8] =
    b"HTTP/1.1 200 OK\r\nDate: Thu, 01 Jan 1970 00:01:40 GMT\r\n\
    Content-Type: application/json\r\nContent-Length: 32\r\nConnection: close\r\n\r\n\
    {\"lab\":\"zinc\",\"name\":\"Aqua Lab\"}";

/// If no laboratory has the code.
pub(crate) const NO_SUCH_LAB_REPLY: &[u8] =
    b"HTTP/1.1 404 Not Found\r\nDate: Thu, 01 Jan 1970 00:01:40 GMT\r\n\
    Content-Type: application/json\r\nContent-Length: 35\r\nConnection: close\r\n\r\n\
    {\"error\":\"no_such_lab\",\"number\":40}";
