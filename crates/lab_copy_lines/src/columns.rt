//! The columns of a row.

/// The thirteen fields of a row.
#[derive(Drop)]
pub struct RowFields<'a> {
    pub kind: &'a [u8],
    pub lab: &'a [u8],
    pub record_number: &'a [u8],
    pub version: &'a [u8],
    pub key: &'a [u8],
    pub value: &'a [u8],
    pub unit: &'a [u8],
    pub person: &'a [u8],
    pub name: &'a [u8],
    pub moment: &'a [u8],
    pub reason: &'a [u8],
    pub digest: &'a [u8],
    pub seal: &'a [u8],
}
