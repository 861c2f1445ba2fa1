//! The lines of a roster, played one after another.

ghost use Rattle.std.specs.Prelude.{◌≡◌, ◌+◌, ◌-◌, ◌<◌, ◌≤◌, ◌^◌, ◌∷◌, ◌++◌, [], List, length, true, Ok, Some, None, IfOk, IsErr, OnOk};
ghost use Rattle.sw_data.specs.Events.{who_of};
ghost use Rattle.sw_data.specs.declared.recordings.FetchLine.{FetchLine};
ghost use Rattle.sw_readers.specs.declared.inputs.RosterLine as lines;
ghost use Rattle.sw_readers.specs.declared.inputs.RosterLine.TheVariants as line;
ghost use Rattle.sw_lane.specs.Picked.{task_left};
ghost use Rattle.sw_roster.specs.Beats.{AreClosed, HasRoster, IsRecent, after_asked, answered};
ghost use Rattle.sw_roster.specs.Playing.{GoesOn, HasBegun, HasHappened, HasSettled, IsPlayed};
ghost use Rattle.sw_roster.specs.declared.beats.Beat as beats;
ghost use Rattle.sw_roster.specs.declared.beats.Beat.TheVariants as beat;
ghost use Rattle.sw_roster.specs.declared.beats.RosterAnswer.TheVariants as told;
ghost use Rattle.sw_roster.specs.declared.faults.RosterFault.TheVariants as faults;
ghost use Rattle.sw_rules.specs.History.{IsOpening};
ghost use Rattle.sw_rules.specs.Step.{enabled};
ghost use Rattle.sw_rules.specs.Storage.{nothing};
ghost use Rattle.sw_rules.specs.Tasks.{ready_tasks};

use crate::beats::{Beat, RosterAnswer, RosterEnd};
use crate::faults::RosterFault;
use crate::roster::Roster;
use std::alloc::Global;
use std::collections::VecDeque;
use sw_core::{Core, task_event};
use sw_data::{Action, Answer, Entry, Event, Items, NoMemory, Task, Who, event_of_action};
use sw_net::Net;
use sw_readers::{RosterLine, RosterRecording};
use sw_work::Reply;

// A roster on which lines are played.
#[derive(Drop)]
pub(crate) struct Play {
    roster: Roster,
    net: Net,
    // The lines that are left.
    left: VecDeque<RosterLine>,
    beats: Vec<Beat>,
    // How many actions of the lane have happened.
    at: u32,
    // How many entries stand behind that of the restart.
    made: u32,
}

// ---- values that a larger function would drop itself at an early end cost the check minutes

// There is no memory for an event.
fn unmade(event: Event) -> NoMemory {
    drop(event);
    NoMemory
}

// An event doesn't happen, and the roster ends.
fn over(event: Event, end: RosterEnd) -> RosterEnd
    ensures { result ≡ end }
{
    drop(event);
    end
}

// ---- beginning

// The entry of the restart from no content.
fn opening(alloc: Global) -> Entry
    ensures { IsOpening nothing result }
{
    Entry {
        pass: 0,
        who: Who::Host,
        event: Event::Restarted { who: Who::Host },
        answer: Answer::Restarted {
            registrations: 0,
            caches: 0,
        },
        notices: Items::new(alloc),
        stamp: 0,
    }
}

// The beats of a restart from no content.
fn begun(alloc: Global) -> Result<Vec<Beat>, NoMemory>
    ensures { IfOk result (λ beats. HasBegun beats.items) }
{
    let mut beats = Vec::with_capacity(alloc, 1)?;
    beats.push_reserved(Beat::Happened(opening(alloc)));
    Ok(beats)
}

// The entry of an event that came to this.
fn entry_of(event: Event, reply: Reply) -> Entry
    ensures { result ≡ record {
      pass = 0;
      who = who_of event;
      event = event;
      answer = reply.answer;
      notices = reply.notices;
      stamp = 0;
    } }
{
    let Reply { answer, notices } = reply;
    Entry {
        pass: 0,
        who: event.who(),
        event,
        answer,
        notices,
        stamp: 0,
    }
}

// ---- what is asked

// A refusal as an answer; want of memory is none.
fn refused(fault: RosterFault) -> Result<RosterAnswer, NoMemory>
    ensures no_client { fault ≡ faults.NoClient → result ≡ Ok told.NoClient }
    ensures no_worker { fault ≡ faults.NoWorker → result ≡ Ok told.NoWorker }
    ensures memory { fault ≡ faults.NoMemory → IsErr result }
{
    match fault {
        RosterFault::NoClient => Ok(RosterAnswer::NoClient),
        RosterFault::NoWorker => Ok(RosterAnswer::NoWorker),
        RosterFault::NoMemory => Err(NoMemory),
    }
}

// What is answered where a client is to be focused.
fn focused(roster: &mut Roster, client: u32) -> Result<RosterAnswer, NoMemory>
    ensures answer { IfOk result (λ reply. (past : List beats.Beat)
        → IsRecent past roster.old.recent → AreClosed past roster.old.state
        → answered roster.old.state past (line.Focus client) ≡ Some reply) }
    ensures recent { IfOk result (λ reply. roster.new.recent
        ≡ after_asked (line.Focus client) reply roster.old.recent) }
    ensures state { roster.new.state ≡ roster.old.state }
{
    match roster.focus(client) {
        Ok(()) => Ok(RosterAnswer::Ok),
        Err(fault) => refused(fault),
    }
}

// What is answered where a worker asks for a client.
fn got(roster: &Roster, client: u32, worker: u32) -> Result<RosterAnswer, NoMemory>
    ensures { IfOk result (λ reply. (past : List beats.Beat) → IsRecent past roster.now.recent
        → AreClosed past roster.now.state
        → answered roster.now.state past (line.Get client worker) ≡ Some reply) }
{
    match roster.get(client, worker) {
        Ok(Some(client)) => Ok(RosterAnswer::Client(client)),
        Ok(None) => Ok(RosterAnswer::Undefined),
        Err(fault) => refused(fault),
    }
}

// What is answered where a worker asks for its clients.
fn listed(
    roster: &Roster,
    alloc: Global,
    worker: u32,
    uncontrolled: bool,
) -> Result<RosterAnswer, NoMemory>
    ensures { IfOk result (λ reply. (past : List beats.Beat) → IsRecent past roster.now.recent
        → AreClosed past roster.now.state
        → answered roster.now.state past (line.List worker uncontrolled) ≡ Some reply) }
{
    match roster.list(alloc, worker, uncontrolled) {
        Ok(all) => Ok(RosterAnswer::Clients(Items::from_vec(all))),
        Err(fault) => refused(fault),
    }
}

impl Play {
    // The lines of a roster at their beginning.
    fn new(alloc: Global, recording: RosterRecording) -> Result<Play, NoMemory>
        ensures { IfOk result (λ play.
            IsPlayed recording.fetches recording.lines play.left.items play) }
    {
        let RosterRecording { fetches, lines } = recording;
        let net = Net::new(alloc, fetches)?;
        let beats = begun(alloc)?;
        Ok(Play {
            roster: Roster::new(alloc, Core::new(alloc)),
            net,
            left: VecDeque::from_vec(lines.into_vec()),
            beats,
            at: 0,
            made: 0,
        })
    }

    // One more beat.
    fn add(&mut self, beat: Beat) -> Result<(), NoMemory>
        ensures beats { OnOk result (self.new.beats.items ≡ self.old.beats.items ++ beat ∷ []) }
        ensures others { self.new ≡ record self.old { beats = self.new.beats } }
    {
        self.beats.push(beat)?;
        Ok(())
    }

    // The entry of an event that has happened; so many are of the lane then.
    fn enter(&mut self, entry: Entry, at: u32) -> Result<(), NoMemory>
        requires few { self.old.made < 2 ^ 32 - 1 }
        ensures beats { OnOk result (self.new.beats.items
            ≡ self.old.beats.items ++ beat.Happened entry ∷ []) }
        ensures others { self.new
            ≡ record self.old { beats = self.new.beats; at = at; made = self.old.made + 1 } }
    {
        self.at = at;
        self.made += 1;
        self.add(Beat::Happened(entry))
    }

    // An event that is enabled happens; so many are of the lane then.
    fn happen(&mut self, alloc: Global, event: Event, at: u32) -> Result<(), NoMemory>
        requires enabled { enabled self.old.roster.state event ≡ true }
        requires few { self.old.made < 2 ^ 32 - 1 }
        ensures { OnOk result (HasHappened event at self.old self.new) }
    {
        match self.roster.act(alloc, &event) {
            Ok(reply) => self.enter(entry_of(event, reply), at),
            Err(NoMemory) => Err(unmade(event)),
        }
    }

    // ---- tasks

    // The event of the first ready task happens.
    fn perform(&mut self, alloc: Global, task: Task) -> Result<(), NoMemory>
        requires few { self.old.made < 2 ^ 32 - 1 }
        requires first { task_left self.old.roster.state [] ≡ Some task }
        ensures played { (fetches : List FetchLine) (all left : List lines.RosterLine)
            → IsPlayed fetches all left self.old → OnOk result (IsPlayed fetches all left self.new) }
        ensures made { OnOk result (self.new.made ≡ self.old.made + 1) }
        ensures left { OnOk result (self.new.left ≡ self.old.left) }
    {
        let event = task_event(alloc, self.roster.core(), &self.net, task)?;
        let at = self.at;
        self.happen(alloc, event, at)
    }

    // All ready tasks happen, one after another; false where one is left and no more entries are made.
    fn settle(&mut self, alloc: Global) -> Result<bool, NoMemory>
        ensures settled { (fetches : List FetchLine) (all left : List lines.RosterLine)
            → IsPlayed fetches all left self.old → HasSettled fetches all left self.new result }
        ensures left { OnOk result (self.new.left ≡ self.old.left) }
    {
        'tasks: loop {
            let Some(task) = self.roster.core().next_task(&[]) else {
                return Ok(true);
            };
            if self.made == u32::MAX {
                return Ok(false);
            }
            self.perform(alloc, task)?;
        }
    }

    // ---- lines

    // The next action of the lane happens, unless the roster ends before it.
    fn act(&mut self, alloc: Global, action: Action) -> Result<Option<RosterEnd>, NoMemory>
        requires rests { ready_tasks self.old.roster.state ≡ [] }
        requires few { self.old.at ≤ self.old.made }
        ensures goes_on { (fetches : List FetchLine) (all : List lines.RosterLine)
            → IsPlayed fetches all (line.Action action ∷ self.old.left.items) self.old
            → GoesOn fetches all self.new result }
        ensures left { OnOk result (self.new.left ≡ self.old.left) }
    {
        let at = self.at;
        let event = event_of_action(Who::Lane { lane: 0, at }, action);
        if !self.roster.core().enabled(&event) {
            return Ok(Some(over(event, RosterEnd::Stalled)));
        }
        if self.made == u32::MAX {
            return Ok(Some(over(event, RosterEnd::Spent)));
        }
        self.happen(alloc, event, at + 1)?;
        Ok(None)
    }

    // What was asked has got its answer.
    fn ask(&mut self, line: RosterLine, answer: RosterAnswer) -> Result<Option<RosterEnd>, NoMemory>
        ensures beats { OnOk result (self.new.beats.items
            ≡ self.old.beats.items ++ beat.Asked line answer ∷ []) }
        ensures others { self.new ≡ record self.old { beats = self.new.beats } }
        ensures none { IfOk result (λ over. over ≡ None) }
    {
        self.add(Beat::Asked { line, answer })?;
        Ok(None)
    }

    // A client is to be focused.
    fn focus(&mut self, client: u32) -> Result<Option<RosterEnd>, NoMemory>
        requires rests { ready_tasks self.old.roster.state ≡ [] }
        ensures goes_on { (fetches : List FetchLine) (all : List lines.RosterLine)
            → IsPlayed fetches all (line.Focus client ∷ self.old.left.items) self.old
            → GoesOn fetches all self.new result }
        ensures left { OnOk result (self.new.left ≡ self.old.left) }
    {
        let answer = focused(&mut self.roster, client)?;
        self.ask(RosterLine::Focus(client), answer)
    }

    // A worker asks for a client.
    fn get(&mut self, client: u32, worker: u32) -> Result<Option<RosterEnd>, NoMemory>
        requires rests { ready_tasks self.old.roster.state ≡ [] }
        ensures goes_on { (fetches : List FetchLine) (all : List lines.RosterLine)
            → IsPlayed fetches all (line.Get client worker ∷ self.old.left.items) self.old
            → GoesOn fetches all self.new result }
        ensures left { OnOk result (self.new.left ≡ self.old.left) }
    {
        let answer = got(&self.roster, client, worker)?;
        self.ask(RosterLine::Get { client, worker }, answer)
    }

    // A worker asks for its clients.
    fn list(
        &mut self,
        alloc: Global,
        worker: u32,
        uncontrolled: bool,
    ) -> Result<Option<RosterEnd>, NoMemory>
        requires rests { ready_tasks self.old.roster.state ≡ [] }
        ensures goes_on { (fetches : List FetchLine) (all : List lines.RosterLine)
            → IsPlayed fetches all (line.List worker uncontrolled ∷ self.old.left.items) self.old
            → GoesOn fetches all self.new result }
        ensures left { OnOk result (self.new.left ≡ self.old.left) }
    {
        let answer = listed(&self.roster, alloc, worker, uncontrolled)?;
        self.ask(
            RosterLine::List {
                worker,
                uncontrolled,
            },
            answer,
        )
    }

    // A line is taken.
    fn take(&mut self, alloc: Global, line: RosterLine) -> Result<Option<RosterEnd>, NoMemory>
        requires rests { ready_tasks self.old.roster.state ≡ [] }
        requires few { self.old.at ≤ self.old.made }
        ensures goes_on { (fetches : List FetchLine) (all : List lines.RosterLine)
            → IsPlayed fetches all (line ∷ self.old.left.items) self.old
            → GoesOn fetches all self.new result }
        ensures left { OnOk result (self.new.left ≡ self.old.left) }
    {
        match line {
            RosterLine::Action(action) => self.act(alloc, action),
            RosterLine::Focus(client) => self.focus(client),
            RosterLine::Get { client, worker } => self.get(client, worker),
            RosterLine::List {
                worker,
                uncontrolled,
            } => self.list(alloc, worker, uncontrolled),
        }
    }

    // All ready tasks happen, and then the next line is taken.
    fn step(&mut self, alloc: Global) -> Result<Option<RosterEnd>, NoMemory>
        requires played { (fetches : List FetchLine) × (all : List lines.RosterLine)
            × IsPlayed fetches all self.old.left.items self.old }
        ensures goes_on { (fetches : List FetchLine) (all : List lines.RosterLine)
            → IsPlayed fetches all self.old.left.items self.old
            → GoesOn fetches all self.new result }
        ensures less { IfOk result (λ over. over ≡ None
            → length self.new.left.items < length self.old.left.items) }
    {
        if !self.settle(alloc)? {
            return Ok(Some(RosterEnd::Spent));
        }
        match self.left.pop_front() {
            None => Ok(Some(RosterEnd::Done)),
            Some(line) => self.take(alloc, line),
        }
    }

    // What has come, by value.
    fn into_beats(self) -> Vec<Beat>
        ensures { result.items ≡ self.beats.items }
    {
        self.beats
    }

    // The lines that are left are taken, to an end.
    fn run(&mut self, alloc: Global) -> Result<RosterEnd, NoMemory>
        requires played { (fetches : List FetchLine) × (all : List lines.RosterLine)
            × IsPlayed fetches all self.old.left.items self.old }
        ensures { IfOk result (λ over. (fetches : List FetchLine) (all : List lines.RosterLine)
            → IsPlayed fetches all self.old.left.items self.old
            → HasRoster fetches all self.new.beats.items over) }
    {
        'lines: loop {
            if let Some(end) = self.step(alloc)? {
                return Ok(end);
            }
        }
    }
}

// What has come of a roster that has ended.
fn finish(
    beats: Vec<Beat>,
    over: Result<RosterEnd, NoMemory>,
) -> Result<(Vec<Beat>, RosterEnd), NoMemory>
    ensures { IfOk result (λ made. (over ≡ Ok made.1) × (made.0.items ≡ beats.items)) }
{
    match over {
        Ok(end) => Ok((beats, end)),
        Err(NoMemory) => Err(NoMemory),
    }
}

/// Plays the lines of a roster on a host from no content, one after another, with these answers of the network: after each
/// line all ready tasks happen. It ends where every line was taken, where the next line is an action that may not happen,
/// or at 2^32 entries.
pub fn run_roster(
    alloc: Global,
    recording: RosterRecording,
) -> Result<(Vec<Beat>, RosterEnd), NoMemory>
    ensures { IfOk result (λ made. HasRoster recording.fetches recording.lines
        made.0.items made.1) }
{
    let mut play = Play::new(alloc, recording)?;
    let over = play.run(alloc);
    finish(play.into_beats(), over)
}
