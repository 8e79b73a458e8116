//! A value that stands apart, as contracts see it.

ghost use Rattle.std.specs.Prelude.{◌≡◌, IfOk};

use std::alloc::{AllocError, Global};
use std::marker::Model;

/// A value in a box, which contracts see as the value itself: what holds it is as small as a pointer.
pub struct Boxed<T> {
    held: Box<T>,
}

impl<T> Model for Boxed<T> {
    ghost Value = { T };

    ghost view = { λ b. b.held.value };
}

impl<T: Drop> Drop for Boxed<T> {
    fn drop(self) {
        let Boxed { held: _ } = self;
    }
}

impl<T> Boxed<T> {
    /// The value, put into a box.
    pub fn new(alloc: Global, value: T) -> Result<Boxed<T>, AllocError>
    where
        T: Drop,
        ensures { IfOk result (λ boxed. boxed ≡ value) }
    {
        Ok(Boxed {
            held: Box::new(alloc, value)?,
        })
    }

    /// The value, where it stands.
    pub fn value(&self) -> &T
        ensures { result.now ≡ self.now }
    {
        &self.held
    }

    /// The value, taken out of its box.
    pub fn into_value(self) -> T
        ensures { result ≡ self }
    {
        let Boxed { held } = self;
        Box::into_inner(held)
    }
}
