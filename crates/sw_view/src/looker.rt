//! The side that looks up.

ghost use Rattle.std.specs.Prelude.{◌≡◌, ◌≤◌, ◌↔◌, [], length, IsTrue, IfOk, IfSome, OnErr};
ghost use mathlib.Core.List.{IsPrefix};
ghost use Rattle.left_right.specs.Sides.{view};
ghost use Rattle.sw_scope.specs.Scopes.{longest_front};
ghost use Rattle.sw_view.specs.Mapped.{mapped_after, matched_after};
ghost use Rattle.sw_view.specs.Moves.{after_moves, nothing, values_of};
ghost use Rattle.sw_view.specs.Views.{IsTied};

use crate::front::Front;
use crate::knowing::{Keeping, Known, Sees};
use crate::shown::Shown;
use left_right::reader::Reader;
use std::marker::Model;
use std::snapshot::Snapshot;
use sw_data::{Kept, Text};
use sw_scope::laws::match_is_the_longest_front;

pub(crate) type ViewReader = Reader<Shown, Known, Keeping>;

/// Looks registrations up. Contracts see it as the entries that it has seen, the content from which they go on, and their
/// list.
#[derive(Drop)]
pub struct Looker {
    reader: Option<ViewReader>,
    base: Snapshot<Kept>,
    front: Front,
}

impl Model for Looker {
    ghost use Rattle.std.specs.Prelude.{◌≡◌, Some};
    ghost use Rattle.left_right.specs.Sides as sides;
    ghost use Rattle.sw_view.specs.Views.{IsTied, Published};

    ghost Value = { Published };

    ghost view = { λ looker. record {
      base = looker.base.value;
      book = looker.front.seen.book;
      entries = looker.front.seen.log;
    } };

    ghost invariant = { λ looker. (held : _) → looker.reader ≡ Some held
        → IsTied (sides.view held.place) looker.base.value looker.front.seen.book };
}

/// What a look-up answers: after so many entries this registration.
#[derive(Debug, Clone, Copy, PartialEq, Eq)]
pub struct Look {
    pub entries: u64,
    pub registration: Option<u32>,
}

/// The publisher is gone, or what it shows could not be read.
#[derive(Debug, Clone, Copy, PartialEq, Eq)]
pub struct Missed;

// The front that is shown, where it goes on from this one of its list, and the registration after it.
fn look_at(shown: &Shown, front: &Front, key: &Text, address: &[u8]) -> Option<(Front, Option<u32>)>
    requires { shown.now.after.seen.book ≡ front.now.seen.book }
    ensures front { IfSome result (λ read. read.0 ≡ shown.now.after) }
    ensures later { IfSome result (λ read. IsPrefix front.now.seen.log read.0.seen.log) }
    ensures found { IfSome result (λ read. read.1
        ≡ longest_front (after_moves nothing (values_of shown.now.moves.items) key.now)
        address.now) }
{
    let found = shown.longest(key, address)?;
    if !front.begins(&shown.after) {
        return None;
    }
    Some((shown.after.again(), found))
}

// One read: the front that is shown, and the registration after it.
fn read(
    reader: ViewReader,
    base: &Snapshot<Kept>,
    front: &Front,
    key: &Text,
    address: &[u8],
) -> (ViewReader, Option<(Front, Option<u32>)>)
    requires { IsTied (view reader.place) base.now.value front.now.seen.book }
    ensures same { view result.0.place ≡ view reader.place }
    ensures book { IfSome result.1 (λ read. read.0.seen.book ≡ front.now.seen.book) }
    ensures later { IfSome result.1 (λ read. IsPrefix front.now.seen.log read.0.seen.log) }
    ensures found { IfSome result.1 (λ read. read.1
        ≡ longest_front (mapped_after base.now.value read.0.seen.log key.now) address.now) }
{
    let _ = base;
    match reader.enter_as::<Sees>() {
        Ok(reading) => {
            let found = look_at(reading.get(), front, key, address);
            (reading.leave(), found)
        }
        Err(reader) => (reader, None),
    }
}

impl Looker {
    // Over a reader that knows its view, with nothing seen but this front.
    pub(crate) fn over(reader: ViewReader, base: Snapshot<Kept>, front: Front) -> Looker
        requires { IsTied (view reader.place) base.value front.seen.book }
        ensures { result ≡ record {
          base = base.value;
          book = front.seen.book;
          entries = front.seen.log;
        } }
    {
        Looker {
            reader: Some(reader),
            base,
            front,
        }
    }

    // Sees this front of its list too.
    pub(crate) fn learn(&mut self, front: &Front)
        requires { front.now.seen.book ≡ self.old.book }
        ensures base { self.new.base ≡ self.old.base }
        ensures book { self.new.book ≡ self.old.book }
        ensures old { IsPrefix self.old.entries self.new.entries }
        ensures front { IsPrefix front.now.seen.log self.new.entries }
    {
        self.front = self.front.longer(front);
    }

    // Whether what was seen is no longer than this front of its list; then it begins it.
    pub(crate) fn begins(&self, front: &Front) -> bool
        requires { front.now.seen.book ≡ self.now.book }
        ensures exactly { IsTrue result
            ↔ (length self.now.entries ≤ length front.now.seen.log) }
        ensures front { length self.now.entries ≤ length front.now.seen.log
            → IsPrefix self.now.entries front.now.seen.log }
    {
        self.front.begins(front)
    }

    /// The registration that an address of a key matches, after all entries that the looker has then seen, which go on from
    /// those that it had seen. It takes no memory, and waits for nobody.
    #[tactic(auto, using(crate::proofs::Lookups::matched_is))]
    pub fn look_up(&mut self, key: &Text, address: &[u8]) -> Result<Look, Missed>
        ensures base { self.new.base ≡ self.old.base }
        ensures book { self.new.book ≡ self.old.book }
        ensures later { IsPrefix self.old.entries self.new.entries }
        ensures entries { IfOk result (λ look. look.entries ≡ length self.new.entries) }
        ensures found { IfOk result (λ look. look.registration
            ≡ longest_front (mapped_after self.new.base self.new.entries key.now) address.now) }
        ensures matched { IfOk result (λ look. look.registration
            ≡ matched_after self.new.base self.new.entries key.now address.now) }
        ensures same { OnErr result (self.new.entries ≡ self.old.entries) }
    {
        let Some(reader) = self.reader.take() else {
            return Err(Missed);
        };
        let (reader, found) = read(reader, &self.base, &self.front, key, address);
        self.reader = Some(reader);
        let Some((front, registration)) = found else {
            return Err(Missed);
        };
        match_is_the_longest_front();
        let entries = front.len();
        self.front = front;
        Ok(Look {
            entries,
            registration,
        })
    }
}
