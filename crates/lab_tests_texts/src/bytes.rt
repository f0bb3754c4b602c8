//! Bytes, as they are compared.
use std::process::Abort;

/// The bytes are those that are wanted.
pub(crate) fn assert_bytes(rt: &impl Abort, bytes: &[u8], wanted: &[u8]) {
    assert_eq!(rt; bytes, wanted);
}
