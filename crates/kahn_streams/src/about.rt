//! A value that only contracts read: what a token is of.

ghost use Rattle.std.specs.Prelude.{◌≡◌};
ghost use base.Fml.{ftrue};

use std::marker::{Model, PhantomData};

/// A `T` that only contracts see. It has no bytes and owns nothing.
pub struct About<T> {
    marker: PhantomData<T>,
    pub ghost value: { T },
}

impl<T> Model for About<T> {
    ghost also_owns = { λ _. ftrue };
}

impl<T> About<T> {
    /// Returns the value that the caller names.
    pub fn named() -> About<T>
        ghost name: { T }
        ensures { result.value ≡ name }
    {
        About {
            marker: PhantomData,
        }
    }
}

unsafe impl<T> Send for About<T> {}

unsafe impl<T> Sync for About<T> {}

impl<T> Drop for About<T> {
    fn drop(self) {
        let Self { marker: _ } = self;
    }
}
