//! What a sink was handed, which only proofs read.

ghost use Rattle.std.specs.Prelude.{◌≡◌, List, [], ◌∷◌, ◌++◌};
ghost use Rattle.std.specs.Borrow.{ftrue};

use std::marker::{Model, PhantomData};

/// A list that only proofs read. It takes no memory, and its calls do nothing at run time.
#[derive(Drop)]
pub struct Trace<A> {
    of: PhantomData<A>,
    pub ghost items: { List A },
}

impl<A> Model for Trace<A> {
    ghost also_owns = { λ _. ftrue };
}

impl<A> Trace<A> {
    /// An empty list.
    pub fn new() -> Trace<A>
        ensures { result.items ≡ [] }
    {
        Trace { of: PhantomData }
    }

    /// This list with one more item behind it.
    pub fn and(&self, item: &A) -> Trace<A>
        ensures { result.items ≡ self.now.items ++ item.now ∷ [] }
    {
        Trace { of: PhantomData }
    }

    /// Adds these items.
    pub fn note(&mut self, items: &[A])
        ensures { self.new.items ≡ self.old.items ++ items.now }
    {
        for item in items {
            *self = self.and(item);
        }
    }
}
