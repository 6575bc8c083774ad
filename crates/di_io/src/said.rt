//! A text that only proofs read. It takes no memory, and its methods do nothing at run time.
ghost use Rattle.std.specs.Prelude.{◌≡◌, ℕ, List, [], ◌++◌};
ghost use Rattle.std.specs.Borrow.{ftrue};

use std::marker::{Model, PhantomData};

#[derive(Drop)]
pub(crate) struct Said {
    marker: PhantomData<u8>,
    pub ghost text: { List ℕ },
}

impl Model for Said {
    ghost also_owns = { λ _. ftrue };
}

impl Said {
    // No text.
    pub(crate) fn new() -> Said
        ensures { result.text ≡ [] }
    {
        Said {
            marker: PhantomData,
        }
    }

    // Adds a text.
    pub(crate) fn add(&mut self, _bytes: &[u8])
        ensures { self.new.text ≡ self.old.text ++ _bytes.now }
    {}
}
