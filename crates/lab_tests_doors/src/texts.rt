//! Bodies of foundings, requests, and all that goes out for one of them, by docs/HTTP.md.

pub(crate) const BODY: &[u8] =
    b"{\"founders\":[{\"code\":\"ann\",\"name\":\"N\",\"password\":\"twelve bytes\"},\
    {\"code\":\"bob\",\"name\":\"N\",\"password\":\"twelve bytes\"},\
    {\"code\":\"cid\",\"name\":\"N\",\"password\":\"twelve bytes\"}],\"name\":\"Aqua Lab\"}";

/// Two founders have one code, and one has a password of eleven bytes.
pub(crate) const TWICE: &[u8] =
    b"{\"founders\":[{\"code\":\"ann\",\"name\":\"N\",\"password\":\"eleven byte\"},\
    {\"code\":\"bob\",\"name\":\"N\",\"password\":\"twelve bytes\"},\
    {\"code\":\"ann\",\"name\":\"N\",\"password\":\"twelve bytes\"}],\"name\":\"Aqua Lab\"}";

/// The third founder has a password of eleven bytes.
pub(crate) const SHORT: &[u8] =
    b"{\"founders\":[{\"code\":\"ann\",\"name\":\"N\",\"password\":\"twelve bytes\"},\
    {\"code\":\"bob\",\"name\":\"N\",\"password\":\"twelve bytes\"},\
    {\"code\":\"cid\",\"name\":\"N\",\"password\":\"eleven byte\"}],\"name\":\"Aqua Lab\"}";

pub(crate) const CARD: &[u8] = b"GET /labs/aqua HTTP/1.1\r\nHost: d\r\n\r\n";

/// An opening changes the laboratory.
pub(crate) const OPEN: &[u8] =
    b"POST /labs/aqua/open HTTP/1.1\r\nHost: d\r\nContent-Length: 40\r\n\r\n\
    {\"code\":\"ann\",\"password\":\"twelve bytes\"}";

/// The card is asked for by a client that waits with a byte, which belongs to no request.
pub(crate) const WAITING_CARD: &[u8] =
    b"GET /labs/aqua HTTP/1.1\r\nHost: d\r\nExpect: 100-continue\r\nContent-Length: 1\r\n\r\nx";

/// The interim answer and the reply that this client gets.
pub(crate) const WAITING_CARD_REPLY: &[u8] = b"HTTP/1.1 100 Continue\r\n\r\n\
    HTTP/1.1 200 OK\r\nDate: Thu, 01 Jan 1970 00:01:40 GMT\r\n\
    Content-Type: application/json\r\nContent-Length: 32\r\nConnection: close\r\n\r\n\
    {\"lab\":\"aqua\",\"name\":\"Aqua Lab\"}";
