//! The side that publishes.

ghost use Rattle.std.specs.Prelude.{◌≡◌, ◌<◌, ◌≤◌, ◌^◌, ◌++◌, ◌∷◌, ◌↔◌, [], length, drop, IsTrue, IfOk, OnOk, OnErr};
ghost use mathlib.Core.List.{IsPrefix};
ghost use Rattle.sw_view.specs.Mapped.{mapped_after};
ghost use Rattle.sw_view.specs.Moves.{AreMoves};
ghost use Rattle.sw_view.specs.Rules.{head_of};
ghost use Rattle.sw_view.specs.Showing.{IsIdle, Leads};

use crate::front::{Front, Head};
use crate::knowing::{Keeping, Known, Publishes};
use crate::looker::Looker;
use crate::moves::Move;
use crate::shown::{Shown, Step};
use left_right::writer::Writer;
use std::alloc::AllocError;
use std::marker::Model;
use std::snapshot::Snapshot;
use std::sync::Wait;
use sw_data::{Entry, Kept, NoMemory};

pub(crate) type ViewWriter = Writer<Shown, Step, Known, Keeping>;

/// Publishes entries with their moves. Contracts see it as the entries that it has published, the content from which they
/// go on, and their list. After want of memory in the middle of a call it publishes nothing more. It is ended by `end`.
pub struct Publisher {
    writer: Option<ViewWriter>,
    head: Head,
    base: Snapshot<Kept>,
    front: Front,
    stuck: bool,
}

impl Model for Publisher {
    ghost use Rattle.std.specs.Prelude.{◌≡◌, false, [], drop, Some};
    ghost use Rattle.sw_view.specs.Rules.{head_of};
    ghost use Rattle.sw_view.specs.Showing.{IsIdle};
    ghost use Rattle.sw_view.specs.Views.{Published};

    ghost Value = { Published };

    ghost view = { λ p. record {
      base = p.base.value;
      book = p.front.seen.book;
      entries = p.front.seen.log;
    } };

    ghost invariant = { λ p. (p.head ≡ head_of p.front.seen.book)
        × (p.stuck ≡ false → (held : _) → p.writer ≡ Some held
        → IsIdle p.base.value p.front.seen.book p.front.seen.log held.desk.shown.value
        (drop held.behind held.log.items)) };
}

// No list is longer.
const MOST: u64 = 1 << 62;

// Adds these entries to all that was seen.
fn add_all(front: &mut Front, head: &Head, entries: &[Entry]) -> Result<(), NoMemory>
    requires { head.now ≡ head_of front.old.seen.book }
    ensures book { front.new.seen.book ≡ front.old.seen.book }
    ensures added { OnOk result (front.new.seen.log ≡ front.old.seen.log ++ entries.now) }
{
    for entry in entries {
        if front.len() >= MOST || !front.add(head, entry) {
            return Err(NoMemory);
        }
    }
    Ok(())
}

// Shows what waits: one step, whose moves are those of its entries.
fn show<R: Wait>(writer: ViewWriter, rt: &R) -> (ViewWriter, Result<(), AllocError>)
    requires { Leads writer.desk.shown.value (drop writer.behind writer.log.items) }
    ensures ok { OnOk result.1 ((step : _)
        × (drop writer.behind writer.log.items ≡ step ∷ [])
        × (result.0.desk.shown.value.after.seen ≡ step.after.seen)
        × (result.0.desk.shown.value.base.value ≡ writer.desk.shown.value.base.value)
        × (drop result.0.behind result.0.log.items ≡ [])) }
    ensures err { OnErr result.1 (result.0.desk.shown.value ≡ writer.desk.shown.value) }
{
    writer.publish_as::<Publishes, R>(rt)
}

// A step of these entries and moves waits, and this is the front behind it.
fn lay_out(
    writer: &mut ViewWriter,
    head: &Head,
    front: &Front,
    entries: &[Entry],
    moves: Vec<Move>,
) -> Result<Front, NoMemory>
    requires head { head.now ≡ head_of front.now.seen.book }
    requires waiting { drop writer.old.behind writer.old.log.items ≡ [] }
    ensures desk { writer.new.desk ≡ writer.old.desk }
    ensures book { IfOk result (λ next. next.seen.book ≡ front.now.seen.book) }
    ensures log { IfOk result (λ next. next.seen.log ≡ front.now.seen.log ++ entries.now) }
    ensures waits { IfOk result (λ next. drop writer.new.behind writer.new.log.items
        ≡ record { after = next; moves = moves } ∷ []) }
{
    let mut next = front.again();
    add_all(&mut next, head, entries)?;
    let step = Step {
        after: next.again(),
        moves,
    };
    writer.append(step).map_err(|_| NoMemory)?;
    Ok(next)
}

// Publishes these entries with their moves; this is the front that is published then.
fn publish_all<R: Wait>(
    rt: &R,
    mut writer: ViewWriter,
    head: &Head,
    front: &Front,
    entries: &[Entry],
    moves: Vec<Move>,
) -> (ViewWriter, Result<Front, NoMemory>)
    requires head { head.now ≡ head_of front.now.seen.book }
    requires waiting { drop writer.behind writer.log.items ≡ [] }
    requires book { writer.desk.shown.value.after.seen.book ≡ front.now.seen.book }
    requires front { writer.desk.shown.value.after.seen.log ≡ front.now.seen.log }
    requires moves { AreMoves
        (mapped_after writer.desk.shown.value.base.value front.now.seen.log) moves.items
        (mapped_after writer.desk.shown.value.base.value (front.now.seen.log ++ entries.now)) }
    ensures book { IfOk result.1 (λ next. next.seen.book ≡ front.now.seen.book) }
    ensures log { IfOk result.1 (λ next. next.seen.log ≡ front.now.seen.log ++ entries.now) }
    ensures idle { IfOk result.1 (λ next. IsIdle writer.desk.shown.value.base.value
        next.seen.book next.seen.log result.0.desk.shown.value (drop result.0.behind result.0.log.items)) }
{
    let next = match lay_out(&mut writer, head, front, entries, moves) {
        Ok(next) => next,
        Err(NoMemory) => return (writer, Err(NoMemory)),
    };
    let (writer, shown) = show(writer, rt);
    match shown {
        Ok(()) => (writer, Ok(next)),
        Err(_) => (writer, Err(NoMemory)),
    }
}

// Ends a writer, where there is one. It may wait for readers.
fn end_writer<R: Wait>(rt: &R, writer: Option<ViewWriter>) {
    if let Some(writer) = writer {
        drop(writer.take(rt));
    }
}

impl Publisher {
    // Over a writer that shows this front.
    pub(crate) fn over(
        writer: ViewWriter,
        head: Head,
        base: Snapshot<Kept>,
        front: Front,
    ) -> Publisher
        requires head { head ≡ head_of front.seen.book }
        requires idle { IsIdle base.value front.seen.book front.seen.log
            writer.desk.shown.value (drop writer.behind writer.log.items) }
        ensures { result ≡ record {
          base = base.value;
          book = front.seen.book;
          entries = front.seen.log;
        } }
    {
        Publisher {
            writer: Some(writer),
            head,
            base,
            front,
            stuck: false,
        }
    }

    /// Publishes these entries, all at once, behind those that are published. It may wait for readers.
    /// After want of memory what is published stays.
    pub fn publish<R: Wait>(
        &mut self,
        rt: &R,
        entries: &[Entry],
        moves: Vec<Move>,
    ) -> Result<(), NoMemory>
        requires { AreMoves (mapped_after self.old.base self.old.entries) moves.items
            (mapped_after self.old.base (self.old.entries ++ entries.now)) }
        ensures base { self.new.base ≡ self.old.base }
        ensures book { self.new.book ≡ self.old.book }
        ensures ok { OnOk result (self.new.entries ≡ self.old.entries ++ entries.now) }
        ensures err { OnErr result (self.new.entries ≡ self.old.entries) }
    {
        if self.stuck {
            return Err(NoMemory);
        }
        let Some(writer) = self.writer.take() else {
            return Err(NoMemory);
        };
        self.stuck = true;
        let (writer, done) = publish_all(rt, writer, &self.head, &self.front, entries, moves);
        end_writer(rt, self.writer.replace(writer));
        match done {
            Ok(front) => {
                self.front = front;
                self.stuck = false;
                Ok(())
            }
            Err(NoMemory) => Err(NoMemory),
        }
    }

    /// How many entries are published; it takes no memory.
    pub fn published(&self) -> u64
        ensures { result ≡ length self.now.entries }
    {
        self.front.len()
    }

    /// Tells a looker of the same view what is published; it takes no memory, and waits for nobody.
    pub fn inform(&self, looker: &mut Looker)
        requires { looker.old.book ≡ self.now.book }
        ensures base { looker.new.base ≡ looker.old.base }
        ensures book { looker.new.book ≡ looker.old.book }
        ensures old { IsPrefix looker.old.entries looker.new.entries }
        ensures published { IsPrefix self.now.entries looker.new.entries }
    {
        looker.learn(&self.front);
    }

    /// Whether a looker of the same view has seen no more entries than are published; then what it has seen begins them.
    pub fn covers(&self, looker: &Looker) -> bool
        requires { looker.now.book ≡ self.now.book }
        ensures exactly { IsTrue result
            ↔ (length looker.now.entries ≤ length self.now.entries) }
        ensures front { length looker.now.entries ≤ length self.now.entries
            → IsPrefix looker.now.entries self.now.entries }
    {
        looker.begins(&self.front)
    }

    /// Waits for the readers, and ends the view. Its lookers see what they have seen.
    pub fn end<R: Wait>(self, rt: &R) {
        let Publisher {
            writer,
            head: _,
            base: _,
            front: _,
            stuck: _,
        } = self;
        end_writer(rt, writer);
    }
}
