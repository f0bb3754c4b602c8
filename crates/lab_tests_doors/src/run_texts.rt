//! All that a run of foundings and a request should write, by docs/HTTP.md and docs/FORMATS.md.

/// The laboratory is founded once, and its card is asked for in the hundredth second.
pub(crate) const ANSWERS: &[u8] = b"founded aqua\nrefused 64 lab_exists\n\
    HTTP/1.1 200 OK\r\nDate: Thu, 01 Jan 1970 00:01:40 GMT\r\n\
    Content-Type: application/json\r\nContent-Length: 32\r\nConnection: close\r\n\r\n\
    {\"lab\":\"aqua\",\"name\":\"Aqua Lab\"}";
