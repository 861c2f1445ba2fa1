//! A view: its publisher and its lookers.

ghost use Rattle.std.specs.Prelude.{◌≡◌, ◌<◌, ◌≤◌, [], All, IfOk, OnOk, drop, length};
ghost use Rattle.left_right.specs.Sides.{view};
ghost use Rattle.sw_view.specs.Views.{IsTied};
ghost use Rattle.sw_view.specs.Rules.{head_of};

use crate::front::{Front, Head, opened};
use crate::knowing::{Notes, Publishes};
use crate::looker::Looker;
use crate::publisher::{Publisher, ViewWriter};
use crate::shown::Shown;
use left_right::writer::Writer;
use std::alloc::Global;
use std::snapshot::Snapshot;
use std::sync::Wait;
use sw_data::{Kept, NoMemory};

/// Makes publishers with their lookers.
pub struct View;

// A looker that has seen nothing.
fn looker(writer: &mut ViewWriter, base: &Kept, front: &Front) -> Result<Looker, NoMemory>
    requires tied { IsTied (view writer.old.desk.place) base.now front.now.seen.book }
    ensures kept { writer.new.desk.shown ≡ writer.old.desk.shown }
    ensures waiting { drop writer.new.behind writer.new.log.items
        ≡ drop writer.old.behind writer.old.log.items }
    ensures tied { view writer.new.desk.place ≡ view writer.old.desk.place }
    ensures looker { IfOk result (λ looker. looker ≡ record {
      base = base.now;
      book = front.now.seen.book;
      entries = front.now.seen.log;
    }) }
{
    let mut reader = writer.factory().reader()?;
    reader.learn::<Notes>(writer.tell::<Notes>());
    Ok(Looker::over(reader, Snapshot::of(base), front.again()))
}

// So many lookers that have seen nothing.
fn lookers(
    alloc: Global,
    writer: &mut ViewWriter,
    base: &Kept,
    front: &Front,
    readers: u32,
) -> Result<Vec<Looker>, NoMemory>
    requires tied { IsTied (view writer.old.desk.place) base.now front.now.seen.book }
    ensures kept { writer.new.desk.shown ≡ writer.old.desk.shown }
    ensures waiting { drop writer.new.behind writer.new.log.items
        ≡ drop writer.old.behind writer.old.log.items }
    ensures all { IfOk result (λ all. All (λ looker. looker ≡ record {
      base = base.now;
      book = front.now.seen.book;
      entries = front.now.seen.log;
    }) all.items) }
    ensures count { IfOk result (λ all. length all.items ≡ readers) }
{
    let mut all = Vec::new(alloc);
    for _ in 0..readers {
        all.push(looker(writer, base, front)?)?;
    }
    Ok(all)
}

// The lookers of a writer that shows nothing; the writer knows its view afterwards.
fn open<R: Wait>(
    alloc: Global,
    rt: &R,
    writer: ViewWriter,
    base: &Kept,
    front: &Front,
    readers: u32,
) -> (ViewWriter, Result<Vec<Looker>, NoMemory>)
    requires waiting { drop writer.behind writer.log.items ≡ [] }
    requires base { writer.desk.shown.value.base.value ≡ base.now }
    requires front { writer.desk.shown.value.after.seen ≡ front.now.seen }
    ensures base { OnOk result.1 (result.0.desk.shown.value.base.value ≡ base.now) }
    ensures front { OnOk result.1 (result.0.desk.shown.value.after.seen ≡ front.now.seen) }
    ensures waiting { OnOk result.1 (drop result.0.behind result.0.log.items ≡ []) }
    ensures all { IfOk result.1 (λ all. All (λ looker. looker ≡ record {
      base = base.now;
      book = front.now.seen.book;
      entries = front.now.seen.log;
    }) all.items) }
    ensures count { IfOk result.1 (λ all. length all.items ≡ readers) }
{
    let (mut writer, shown) = writer.publish_as::<Publishes, R>(rt);
    match shown {
        Ok(()) => {
            let all = lookers(alloc, &mut writer, base, front, readers);
            (writer, all)
        }
        Err(_) => (writer, Err(NoMemory)),
    }
}

impl View {
    /// A view of entries that go on from this content: nothing is published, and so many lookers have seen nothing.
    /// It may wait.
    pub fn new<R: Wait>(
        alloc: Global,
        rt: &R,
        base: &Kept,
        readers: u32,
    ) -> Result<(Publisher, Vec<Looker>), NoMemory>
        requires some { 0 < readers }
        requires few { readers ≤ 16 }
        ensures base { IfOk result (λ made. made.0.base ≡ base.now) }
        ensures empty { IfOk result (λ made. made.0.entries ≡ []) }
        ensures lookers { IfOk result (λ made. All (λ looker. looker ≡ made.0) made.1.items) }
        ensures count { IfOk result (λ made. length made.1.items ≡ readers) }
    {
        let (head, front) = opened();
        let first = Shown::new(alloc, Snapshot::of(base), front.again());
        let second = Shown::new(alloc, Snapshot::of(base), front.again());
        let writer = Writer::new(alloc, first, second, readers as usize)?;
        let (writer, all) = open(alloc, rt, writer, base, &front, readers);
        match all {
            Ok(all) => Ok((
                Publisher::over(writer, head, Snapshot::of(base), front),
                all,
            )),
            Err(NoMemory) => {
                drop(writer.take(rt));
                Err(NoMemory)
            }
        }
    }
}
