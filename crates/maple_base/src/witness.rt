// A value that only proofs read.
ghost use Rattle.std.specs.Prelude.{◌≡◌};
ghost use Rattle.std.specs.Borrow.{ftrue};

use crate::Listed;
use std::marker::{Model, PhantomData};

/// A value as it was seen. It takes no memory, and may go to another thread whatever the value may.
#[derive(Drop)]
pub struct Witness<T> {
    marker: PhantomData<T>,
    pub ghost value: { T },
}

/// A list that only proofs read.
pub type GhostList<T> = Witness<Listed<T>>;

impl<T> Model for Witness<T> {
    ghost also_owns = { λ _. ftrue };
}

// It owns nothing.
unsafe impl<T> Send for Witness<T> {}

impl<T> Witness<T> {
    pub fn of(x: &T) -> Witness<T>
        ensures { result.value ≡ x.now }
    {
        Witness::picked(x)
    }

    /// The value that the caller's proof picks, by what is shown here. It does nothing when it runs.
    pub fn picked<S>(shown: &S) -> Witness<T>
        ghost pick: { T }
        ensures { result.value ≡ pick }
    {
        let _ = shown;
        Witness {
            marker: PhantomData,
        }
    }
}

impl<T> Witness<Listed<T>> {
    ghost use Rattle.std.specs.Prelude.{[]};

    /// No items.
    pub fn none() -> GhostList<T>
        ensures { result.value ≡ [] }
    {
        Witness::picked(&())
    }
}
