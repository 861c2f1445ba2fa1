//! A value on the heap, seen by contracts as the value.

ghost use Rattle.std.specs.Prelude.{◌≡◌, IfOk};
ghost use Rattle.std.specs.Option.{option_copied};

use super::no_memory::NoMemory;
use std::alloc::Global;
use std::marker::Model;

/// A large member of an enum's variant, which takes the room of a pointer there. In a clause it is the value.
#[derive(Debug, Drop)]
pub struct Boxed<T> {
    inner: Box<T>,
}

impl<T> Model for Boxed<T> {
    ghost Value = { T };

    ghost view = { λ b. b.inner.value };
}

impl<T> Boxed<T> {
    /// The value.
    pub fn get(&self) -> &T
        ensures { result.now ≡ self.now }
    {
        &self.inner
    }

    /// The value by itself; it takes no memory.
    pub fn into_inner(self) -> T
        ensures { result ≡ self }
    {
        let Boxed { inner } = self;
        Box::into_inner(inner)
    }
}

impl<T: Drop> Boxed<T> {
    /// A value, moved to the heap. Where that finds no memory it is let go.
    pub fn new(alloc: Global, value: T) -> Result<Boxed<T>, NoMemory>
        ensures { IfOk result (λ b. b ≡ value) }
    {
        Ok(Boxed {
            inner: Box::new(alloc, value)?,
        })
    }
}

/// What there is, moved to the heap. Where that finds no memory it is let go.
pub fn boxed_option<T: Drop>(alloc: Global, held: Option<T>) -> Result<Option<Boxed<T>>, NoMemory>
    ensures { IfOk result (λ b. b ≡ held) }
{
    match held {
        Some(value) => Ok(Some(Boxed::new(alloc, value)?)),
        None => Ok(None),
    }
}

/// The value, where there is one; it takes no memory.
pub fn unboxed_option<T>(held: &Option<Boxed<T>>) -> Option<&T>
    ensures { option_copied result ≡ held.now }
{
    match held {
        Some(value) => Some(value.get()),
        None => None,
    }
}
