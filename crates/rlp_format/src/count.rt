//! A whole number that only clauses read.

ghost use Rattle.std.specs.{Prelude.{◌≡◌, ℕ, ◌+◌}, Borrow.ftrue};

use std::marker::{Model, PhantomData};

/// A number of things done, such as bytes moved or headers read. It doesn't allocate, and its calls
/// do nothing at run time. Only [`Count::add`] changes the number.
#[derive(Drop)]
pub struct Count {
    marker: PhantomData<u8>,
    pub ghost total: { ℕ },
}

impl Model for Count {
    ghost also_owns = { λ _. ftrue };
}

impl Count {
    /// A count of 0.
    pub fn new() -> Count
        ensures { result.total ≡ 0 }
    {
        Count {
            marker: PhantomData,
        }
    }

    /// Adds to the count.
    pub fn add(&mut self, _amount: usize)
        ensures { self.new.total ≡ self.old.total + _amount }
    {}
}
