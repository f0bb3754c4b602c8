//! Lists of values, in order, for records and reports.
ghost use Rattle.std.specs.Prelude.{◌≡◌, ◌++◌, ◌-◌, [], ◌∷◌, length, slice_get, option_copied, OnOk, OnErr};

use std::alloc::{AllocError, Global};
use std::marker::Model;

/// Values in order.
///
/// A contract sees them as a list, so two series of equal values are equal, wherever in memory they
/// are.
#[derive(Debug)]
pub struct Series<T> {
    list: Vec<T>,
}

// `drop` is written out, so that a caller doesn't prove again how each part is dropped.
impl<T: Drop> Drop for Series<T> {
    fn drop(self) {
        let Series { list: _ } = self;
    }
}

impl<T> Model for Series<T> {
    ghost use Rattle.std.specs.Prelude.{List};

    ghost Value = { List T };

    ghost view = { λ series. series.list.items };
}

impl<T> Series<T> {
    /// Makes a series without values. It takes no memory.
    pub fn new(alloc: Global) -> Series<T>
        ensures { result ≡ [] }
    {
        Series {
            list: Vec::new(alloc),
        }
    }

    /// Makes a series of the values of a list. It takes no memory.
    pub fn from_vec(list: Vec<T>) -> Series<T>
        ensures { result ≡ list.items }
    {
        Series { list }
    }

    /// Returns the list. It takes no memory.
    pub fn into_vec(self) -> Vec<T>
        ensures { result.items ≡ self }
    {
        let Series { list } = self;
        list
    }

    /// The values.
    pub fn as_slice(&self) -> &[T]
        ensures { result.now ≡ self.now }
    {
        self.list.as_slice()
    }

    /// The last value, if there is one.
    pub fn last(&self) -> Option<&T>
        ensures { option_copied result ≡ slice_get self.now (length self.now - 1) }
    {
        self.list.last()
    }
}

impl<T: Drop> Series<T> {
    /// Adds a value at the end. The only error is that memory ran out; the series then is as
    /// before.
    ///
    /// # Errors
    /// Memory ran out.
    pub fn push(&mut self, value: T) -> Result<(), AllocError>
        ensures ok { OnOk result (self.new ≡ self.old ++ value ∷ []) }
        ensures err { OnErr result (self.new ≡ self.old) }
    {
        self.list.push(value)?;
        Ok(())
    }
}

impl<T: Clone + Drop> Clone for Series<T> {
    ghost use Rattle.std.specs.Prelude.{◌≡◌};

    ghost is_clone = { λ one other. ((x y : T) → T.is_clone x y → y ≡ x) → other ≡ one };

    fn clone(&self) -> Result<Series<T>, AllocError> {
        let list = self.list.clone()?;
        Ok(Series { list })
    }
}
