//! Requests, and all that a run of them, or serving them, writes over a
//! keeper that refuses, by docs/HTTP.md and docs/FORMATS.md.

/// Of cedar there is no laboratory, so nothing is changed, and the keeper is called once.
pub(crate) const CEDAR_CARD: &[u8] = b"GET /labs/cedar HTTP/1.1\r\nHost: d\r\n\r\n";

/// Of five foundings the second and the fourth are refused. Then come an opening whose load is
/// refused for memory, the card of no laboratory, an opening whose load the store refuses, a card
/// whose empty change is refused for memory, and the card of no laboratory again.
pub(crate) const ANSWERS: &[u8] = b"founded aqua\nrefused 90 memory\nrefused 64 lab_exists\n\
    refused 63 storage\nfounded brick\n\
    HTTP/1.1 503 Service Unavailable\r\n\
    Content-Type: application/json\r\nContent-Length: 30\r\nConnection: close\r\n\r\n\
    {\"error\":\"memory\",\"number\":90}\
    HTTP/1.1 404 Not Found\r\nDate: Thu, 01 Jan 1970 00:01:40 GMT\r\n\
    Content-Type: application/json\r\nContent-Length: 35\r\nConnection: close\r\n\r\n\
    {\"error\":\"no_such_lab\",\"number\":40}\
    HTTP/1.1 503 Service Unavailable\r\nDate: Thu, 01 Jan 1970 00:01:40 GMT\r\n\
    Content-Type: application/json\r\nContent-Length: 31\r\nConnection: close\r\n\r\n\
    {\"error\":\"storage\",\"number\":63}\
    HTTP/1.1 503 Service Unavailable\r\n\
    Content-Type: application/json\r\nContent-Length: 30\r\nConnection: close\r\n\r\n\
    {\"error\":\"memory\",\"number\":90}\
    HTTP/1.1 404 Not Found\r\nDate: Thu, 01 Jan 1970 00:01:40 GMT\r\n\
    Content-Type: application/json\r\nContent-Length: 35\r\nConnection: close\r\n\r\n\
    {\"error\":\"no_such_lab\",\"number\":40}";

/// A head that isn't in the grammar: it asks nothing, so the keeper isn't called.
pub(crate) const NO_HEAD: &[u8] = b"x\r\n\r\n";

/// That there is no laboratory, that no memory was there, that the head isn't in the grammar, that
/// there is no laboratory again, and that the store refused.
pub(crate) const SERVED: &[u8] =
    b"HTTP/1.1 404 Not Found\r\nDate: Thu, 01 Jan 1970 00:01:40 GMT\r\n\
    Content-Type: application/json\r\nContent-Length: 35\r\nConnection: close\r\n\r\n\
    {\"error\":\"no_such_lab\",\"number\":40}\
    HTTP/1.1 503 Service Unavailable\r\n\
    Content-Type: application/json\r\nContent-Length: 30\r\nConnection: close\r\n\r\n\
    {\"error\":\"memory\",\"number\":90}\
    HTTP/1.1 400 Bad Request\r\nDate: Thu, 01 Jan 1970 00:01:40 GMT\r\n\
    Content-Type: application/json\r\nContent-Length: 32\r\nConnection: close\r\n\r\n\
    {\"error\":\"bad_head\",\"number\":80}\
    HTTP/1.1 404 Not Found\r\nDate: Thu, 01 Jan 1970 00:01:40 GMT\r\n\
    Content-Type: application/json\r\nContent-Length: 35\r\nConnection: close\r\n\r\n\
    {\"error\":\"no_such_lab\",\"number\":40}\
    HTTP/1.1 503 Service Unavailable\r\nDate: Thu, 01 Jan 1970 00:01:40 GMT\r\n\
    Content-Type: application/json\r\nContent-Length: 31\r\nConnection: close\r\n\r\n\
    {\"error\":\"storage\",\"number\":63}";
