//! The values of an amendment as somebody typed them, which no form has read yet.
use lab_forms_texts::{Key, Series, Typed, Unit};

/// A value of an amendment as it was typed.
#[derive(Drop)]
pub struct Item {
    /// The field's key.
    pub key: Key,
    /// The value.
    pub value: Typed,
    /// The unit of the value.
    pub unit: Unit,
}

/// The values of an amendment, in order. No key comes twice: a request body with such a key is
/// refused when it is read.
pub type Altered = Series<Item>;
