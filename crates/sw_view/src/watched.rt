//! A value that publishes the entries of each of its steps.

ghost use Rattle.std.specs.Prelude.{◌≡◌, [], OnOk, OnErr};
ghost use mathlib.Core.List.{IsPrefix};

use crate::mapped::Mapped;
use crate::publisher::Publisher;
use std::marker::Model;
use std::sync::Wait;
use sw_data::{Entry, NoMemory};
use sw_lock::Logged;

/// A value that publishes the entries of each of its steps. Contracts see it as the value and what is published.
pub struct Watched<T: Mapped, R: Wait + Drop> {
    value: T,
    publisher: Publisher,
    rt: R,
}

impl<T: Mapped, R: Wait + Drop> Model for Watched<T, R> {
    ghost use Rattle.sw_view.specs.Watching.{IsWatched, Watching};

    ghost Value = { Watching T };

    ghost view = { λ watched. record { value = watched.value; published = watched.publisher } };

    ghost invariant = { λ watched.
        IsWatched (T.kept watched.value) (T.log watched.value) watched.publisher };
}

// Publishes the entries of a value that are not published yet. It may wait for readers. After want of memory what is
// published stays.
fn publish_rest<T: Mapped, R: Wait>(
    rt: &R,
    value: &T,
    publisher: &mut Publisher,
) -> Result<(), NoMemory>
    requires base { publisher.old.base ≡ T.kept value.now }
    requires begins { IsPrefix publisher.old.entries (T.log value.now) }
    ensures base { publisher.new.base ≡ publisher.old.base }
    ensures book { publisher.new.book ≡ publisher.old.book }
    ensures ok { OnOk result (publisher.new.entries ≡ T.log value.now) }
    ensures err { OnErr result (publisher.new.entries ≡ publisher.old.entries) }
{
    let from = publisher.published();
    if from == value.entries() {
        return Ok(());
    }
    let moves = value.moves_since(from)?;
    publisher.publish(rt, value.entries_since(from), moves)
}

impl<T: Mapped, R: Wait + Drop> Watched<T, R> {
    /// Publishes the entries of a value from its next step on, by a publisher that has published nothing. It takes no memory.
    #[tactic(auto, using(crate::proofs::Beginnings::nothing_begins))]
    pub fn new(value: T, publisher: Publisher, rt: R) -> Watched<T, R>
        requires base { publisher.base ≡ T.kept value }
        requires none { publisher.entries ≡ [] }
        ensures value { result.value ≡ value }
        ensures published { result.published ≡ publisher }
    {
        Watched {
            value,
            publisher,
            rt,
        }
    }

    /// The value and its publisher. It takes no memory.
    pub fn into_parts(self) -> (T, Publisher)
        ensures value { result.0 ≡ self.value }
        ensures published { result.1 ≡ self.published }
        ensures base { result.1.base ≡ T.kept result.0 }
        ensures begins { IsPrefix result.1.entries (T.log result.0) }
    {
        let Watched {
            value,
            publisher,
            rt: _,
        } = self;
        (value, publisher)
    }
}

impl<T: Mapped, R: Wait + Drop> Logged for Watched<T, R> {
    ghost use Rattle.sw_view.specs.Watching.{HasStepped, WatchBase};

    type Entry = Entry;

    type Given = T::Given;

    type Out = T::Out;

    ghost Base = { WatchBase T.Base };

    ghost base = { λ watched. record { base = T.base watched.value; book = watched.published.book } };

    ghost passes = { λ watched. T.passes watched.base };

    ghost log = { λ watched. T.log watched.value };

    ghost maker = { T.maker };

    ghost steps = { HasStepped T.Logged T.Mapped.own };

    fn step(&mut self, given: T::Given, pass: u32) -> T::Out {
        let said = self.value.step(given, pass);
        match publish_rest(&self.rt, &self.value, &mut self.publisher) {
            Ok(()) => said,
            Err(NoMemory) => {
                drop(said);
                self.value.stop()
            }
        }
    }

    fn entries(&self) -> u64 {
        self.value.entries()
    }
}
