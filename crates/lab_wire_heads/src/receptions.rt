//! The laws that a head and a request depend only on their own bytes, so it doesn't matter in which
//! pieces they came.
ghost use Rattle.lab_wire_heads.specs.Receptions.{HeadIsByFront, RequestIsByFront, RequestIsItsBytes};

/// Law: the bytes after the place up to which a reader is read for a head don't change the head.
pub fn head_is_by_front()
    ensures { HeadIsByFront }
{}

/// Law: the bytes after a request don't change the request.
pub fn request_is_by_front()
    ensures { RequestIsByFront }
{}

/// Law: the bytes of a request, head and body, make the same request when they stand alone.
pub fn request_is_its_bytes()
    ensures { RequestIsItsBytes }
{}
