//! Events that happen, and wait for their changes to be written.

ghost use Rattle.std.specs.Prelude.{◌≡◌, ◌≢◌, ◌≤◌, ◌<◌, ◌^◌, ◌+◌, ◌++◌, ◌↔◌, [], ℕ, List, true, false, length, IfOk, IsErrOf, OnErr, OnOk, Some};
ghost use Rattle.sw_codec.specs.Spelling.{spelled_all};
ghost use Rattle.sw_data.specs.declared.events.Event as events;
ghost use Rattle.sw_journal.specs.Format.{format_2, needed_length};
ghost use Rattle.sw_laws.specs.Coherent.{Coherent};
ghost use Rattle.sw_rules.specs.State.{State};
ghost use Rattle.sw_rules.specs.Step.{changes_of, enabled};
ghost use Rattle.sw_store.specs.Groups.{IsEntry, IsGroup, IsPlaced, IsStaged, IsTooLong, IsWorkedOut};
ghost use Rattle.sw_store.specs.Stores.{FitsBehind, IsSame, IsSameTwin};
ghost use Rattle.sw_state.specs.Hosted.{state_of};

use crate::errors::StageError;
use crate::group::Group;
use crate::store::Store;
use std::alloc::Global;
use sw_codec::write;
use sw_core::Core;
use sw_data::{Bytes, Entry, Event, NoMemory};
use sw_kept::Twin;
use sw_work::{Plan, Reply};

// ---- events that don't happen; each call takes its event and its plan, since one that a larger function would drop itself
// at an early end costs the check minutes

// The store is broken.
fn broken(event: Event, since: u64) -> StageError
    ensures { result ≡ StageError.Broken since }
{
    drop(event);
    StageError::Broken { since }
}

// There is no memory.
fn unmade(event: Event) -> StageError
    ensures { result ≡ StageError.NoMemory }
{
    drop(event);
    StageError::NoMemory
}

// There is no memory for the changes.
fn undone(event: Event, plan: Plan) -> StageError
    ensures { result ≡ StageError.NoMemory }
{
    drop(plan);
    unmade(event)
}

// The record of this length is too long.
fn too_long(event: Event, plan: Plan, group: &Group, twin: &Twin, length: u64) -> StageError
    requires small { needed_length twin.now.journal.format length < 2 ^ 64 }
    ensures full { group.now.entries ≡ [] → result ≡ StageError.Full event
        (twin.now.journal.gate + 1) (needed_length twin.now.journal.format length) }
    ensures no_room { group.now.entries ≢ [] → result ≡ StageError.NoRoom event }
{
    drop(plan);
    if group.len() > 0 {
        return StageError::NoRoom(event);
    }
    StageError::Full {
        event,
        length: twin.next(),
        needed: twin.needed(length),
    }
}

// ---- events that happen

// Whether a record whose payload has this length passes the limit.
fn passes(twin: &Twin, length: u64) -> bool
    requires small { needed_length twin.now.journal.format length < 2 ^ 64 }
    ensures long { result ≡ true → twin.now.journal.limit
        < twin.now.journal.gate + 1 + needed_length twin.now.journal.format length }
    ensures short { result ≡ false → twin.now.journal.gate + 1
        + needed_length twin.now.journal.format length ≤ twin.now.journal.limit }
{
    twin.next().saturating_add(twin.needed(length)) > twin.limit()
}

// An event, worked out.
fn work_out(core: &mut Core, alloc: Global, event: &Event) -> Result<Plan, NoMemory>
    requires coherent { Coherent (state_of core.old) }
    requires enabled { enabled (state_of core.old) event.now ≡ true }
    ensures same { state_of core.new ≡ state_of core.old }
    ensures worked { IfOk result (λ plan. IsWorkedOut event.now plan core.new) }
{
    core.prepare(alloc, event)
}

// A plan is carried out. It takes no memory.
#[tactic(auto, using(sw_core::proofs::Applying::worked))]
fn carry_out(core: &mut Core, event: Event, plan: Plan, pass: u32) -> Entry
    requires { IsWorkedOut event plan core.old }
    ensures { IsEntry event pass (state_of core.old) result (state_of core.new) }
{
    let Reply { answer, notices } = core.finish(plan);
    Entry {
        pass,
        who: event.who(),
        event,
        answer,
        notices,
        stamp: 0,
    }
}

// The spellings of the changes of an event that was worked out.
fn spelled(core: &Core, alloc: Global, plan: &Plan) -> Result<Bytes, NoMemory>
    requires { (event : events.Event) × IsWorkedOut event plan.now core.now }
    ensures { (event : events.Event) → IsWorkedOut event plan.now core.now
        → IfOk result (λ more. spelled_all (changes_of (state_of core.now) event) ≡ Some more) }
{
    match core.changes(alloc, plan) {
        Ok(changes) => write(alloc, changes.as_slice()),
        Err(NoMemory) => Err(NoMemory),
    }
}

// The same, with the room for the entry and for them.
fn spell(
    core: &Core,
    alloc: Global,
    plan: &Plan,
    group: &mut Group,
    twin: &mut Twin,
) -> Result<Bytes, NoMemory>
    requires { (event : events.Event) × IsWorkedOut event plan.now core.now }
    ensures spelled { (event : events.Event) → IsWorkedOut event plan.now core.now
        → IfOk result (λ more. spelled_all (changes_of (state_of core.now) event) ≡ Some more) }
    ensures entries { group.new.entries ≡ group.old.entries }
    ensures payload { group.new.payload ≡ group.old.payload }
    ensures entry_room { OnOk result (0 < group.new.entry_room) }
    ensures room { IfOk result (λ more. (length more ≤ group.new.payload_room)
        × (length (group.old.payload ++ more) ≤ twin.new.journal.spare)) }
    ensures twin { twin.new ≡ record twin.old {
      journal = record twin.old.journal { spare = twin.new.journal.spare };
    } }
    ensures small { IfOk result (λ more.
        needed_length twin.new.journal.format (length (group.old.payload ++ more)) < 2 ^ 64) }
    ensures kept { twin.old.journal.spare ≤ twin.new.journal.spare }
{
    let more = spelled(core, alloc, plan)?;
    let bytes = more.as_bytes().len();
    group.make_room(bytes)?;
    let Some(length) = group.payload().len().checked_add(bytes) else {
        return Err(NoMemory);
    };
    twin.reserve(length as u64)?;
    Ok(more)
}

// An event that was worked out happens, where the record of its changes and those that wait fits. It takes no memory.
fn place(
    core: &mut Core,
    event: Event,
    plan: Plan,
    pass: u32,
    more: &[u8],
    group: &mut Group,
    twin: &Twin,
) -> Result<(), StageError>
    requires worked { IsWorkedOut event plan core.old }
    requires spelled { spelled_all (changes_of (state_of core.old) event) ≡ Some more.now }
    requires format { twin.now.journal.format ≡ format_2 }
    requires entry_room { 0 < group.old.entry_room }
    requires payload_room { length more.now ≤ group.old.payload_room }
    requires small { needed_length twin.now.journal.format (length (group.old.payload ++ more.now))
        < 2 ^ 64 }
    ensures happened { OnOk result (IsPlaced event pass (state_of core.old) group.old more.now
        group.new (state_of core.new)) }
    ensures fits { OnOk result (more.now ≢ []
        → FitsBehind twin.now (group.old.payload ++ more.now)) }
    ensures core { OnErr result (core.new ≡ core.old) }
    ensures group { OnErr result (group.new ≡ group.old) }
    ensures not_broken { (since : ℕ) → IsErrOf result (StageError.Broken since) → ⊥ }
    ensures full { (refused : events.Event) (from needed : ℕ)
        → IsErrOf result (StageError.Full refused from needed)
        → (refused ≡ event) × (group.old.entries ≡ []) × (from ≡ twin.now.journal.gate + 1)
        × IsTooLong (changes_of (state_of core.old) event) group.old.payload twin.now needed }
    ensures no_room { (refused : events.Event) → IsErrOf result (StageError.NoRoom refused)
        → (refused ≡ event) × (group.old.entries ≢ []) × ((needed : ℕ)
        × IsTooLong (changes_of (state_of core.old) event) group.old.payload
        twin.now needed) }
{
    let length = group.payload().len() + more.len();
    if !more.is_empty() && passes(twin, length as u64) {
        return Err(too_long(event, plan, group, twin, length as u64));
    }
    let entry = carry_out(core, event, plan, pass);
    group.add(entry, more);
    Ok(())
}

// An event that was worked out happens, where there is memory for its changes, and room on the disk.
fn stage_plan(
    core: &mut Core,
    alloc: Global,
    event: Event,
    plan: Plan,
    pass: u32,
    group: &mut Group,
    twin: &mut Twin,
) -> Result<(), StageError>
    requires worked { IsWorkedOut event plan core.old }
    requires format { twin.old.journal.format ≡ format_2 }
    ensures happened { OnOk result ((more : List ℕ)
        × (spelled_all (changes_of (state_of core.old) event) ≡ Some more)
        × IsPlaced event pass (state_of core.old) group.old more group.new (state_of core.new)
        × (more ≢ [] → FitsBehind twin.old (group.old.payload ++ more))) }
    ensures room { OnOk result (length group.new.payload ≤ twin.new.journal.spare) }
    ensures core { OnErr result (core.new ≡ core.old) }
    ensures entries { OnErr result (group.new.entries ≡ group.old.entries) }
    ensures payload { OnErr result (group.new.payload ≡ group.old.payload) }
    ensures twin { IsSameTwin twin.old twin.new }
    ensures kept { twin.old.journal.spare ≤ twin.new.journal.spare }
    ensures not_broken { (since : ℕ) → IsErrOf result (StageError.Broken since) → ⊥ }
    ensures full { (refused : events.Event) (from needed : ℕ)
        → IsErrOf result (StageError.Full refused from needed)
        → (refused ≡ event) × (group.old.entries ≡ []) × (from ≡ twin.old.journal.gate + 1)
        × IsTooLong (changes_of (state_of core.old) event) group.old.payload twin.old needed }
    ensures no_room { (refused : events.Event) → IsErrOf result (StageError.NoRoom refused)
        → (refused ≡ event) × (group.old.entries ≢ []) × ((needed : ℕ)
        × IsTooLong (changes_of (state_of core.old) event) group.old.payload
        twin.old needed) }
{
    match spell(core, alloc, &plan, group, twin) {
        Ok(more) => place(core, event, plan, pass, more.as_bytes(), group, twin),
        Err(NoMemory) => Err(undone(event, plan)),
    }
}

impl Store {
    /// An event happens, which this pass made: its entry and its changes wait to be written. No call of the disk is
    /// made.
    ///
    /// Broken is tested first, then want of memory, then the limit. A refused event leaves all as it was.
    pub fn stage(&mut self, alloc: Global, event: Event, pass: u32) -> Result<(), StageError>
        requires coherent { Coherent (state_of self.old.core) }
        requires enabled { enabled (state_of self.old.core) event ≡ true }
        ensures staged { OnOk result (IsStaged event pass self.old self.new) }

        // What waits goes on from the state at which it began.
        ensures goes_on { (begun : State) → IsGroup begun self.old
            → OnOk result (IsGroup begun self.new) }

        // Each refusal has its cause, and leaves all as it was.
        ensures same { OnErr result (IsSame self.old self.new) }
        ensures broken { (since : ℕ) → IsErrOf result (StageError.Broken since)
            ↔ (self.old.since ≡ Some since) }
        ensures full { (refused : events.Event) (from needed : ℕ)
            → IsErrOf result (StageError.Full refused from needed)
            → (refused ≡ event) × (self.old.staged ≡ []) × (from ≡ self.old.twin.journal.gate + 1)
            × IsTooLong (changes_of (state_of self.old.core) event) self.old.payload
            self.old.twin needed }
        ensures no_room { (refused : events.Event) → IsErrOf result (StageError.NoRoom refused)
            → (refused ≡ event) × (self.old.staged ≢ []) × ((needed : ℕ)
            × IsTooLong (changes_of (state_of self.old.core) event) self.old.payload
            self.old.twin needed) }
    {
        match self.since {
            Some(since) => Err(broken(event, since)),
            None => match work_out(&mut self.core, alloc, &event) {
                Ok(plan) => stage_plan(
                    &mut self.core,
                    alloc,
                    event,
                    plan,
                    pass,
                    &mut self.group,
                    &mut self.twin,
                ),
                Err(NoMemory) => Err(unmade(event)),
            },
        }
    }
}
