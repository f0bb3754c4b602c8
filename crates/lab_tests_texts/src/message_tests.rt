//! A message at no moment.
use crate::bytes::assert_bytes;
use http::StatusCode;
use lab_wire_heads::message;

#[test]
fn a_message_without_moment_has_no_date(rt: HostRuntime) {
    let status = StatusCode::SERVICE_UNAVAILABLE;
    let reply = message(rt.alloc(), status, None, "application/json", "", b"");
    let text: &[u8] = b"HTTP/1.1 503 Service Unavailable\r\nContent-Type: application/json\r\n\
        Content-Length: 0\r\nConnection: close\r\n\r\n";
    assert_bytes(&rt, &reply.expect(&rt, "memory"), text);
}
