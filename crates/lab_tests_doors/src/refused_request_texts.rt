//! The whole replies that an opening should get, by docs/HTTP.md.

pub(crate) const STORAGE_REPLY: &[u8] =
    b"HTTP/1.1 503 Service Unavailable\r\nDate: Thu, 01 Jan 1970 00:01:40 GMT\r\n\
    Content-Type: application/json\r\nContent-Length: 31\r\nConnection: close\r\n\r\n\
    {\"error\":\"storage\",\"number\":63}";

pub(crate) const MEMORY_REPLY: &[u8] = b"HTTP/1.1 503 Service Unavailable\r\n\
    Content-Type: application/json\r\nContent-Length: 30\r\nConnection: close\r\n\r\n\
    {\"error\":\"memory\",\"number\":90}";

/// What an opening gets that is taken in the hundredth second, at the first word 9, if no session
/// was opened before it.
pub(crate) const OPEN_REPLY: &[u8] = b"HTTP/1.1 200 OK\r\nDate: Thu, 01 Jan 1970 00:01:40 GMT\r\n\
    Content-Type: application/json\r\nContent-Length: 100\r\nConnection: close\r\n\r\n\
    {\"due\":false,\"session\":1,\"token\":\"0000000000000009000000000000000200000000000000030000000000000004\"}";
