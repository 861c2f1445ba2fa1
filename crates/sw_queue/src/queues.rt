//! The table of jobs, with the queue of each key and scope, the followers of each job and how many of each key are
//! unfinished.

ghost use Rattle.std.specs.Prelude.{◌≡◌, ◌++◌, ◌∷◌, [], ◌+◌, ◌<◌, ◌≤◌, ℕ, List, bytes_eq, length, map, filter, true, not, ◌&&◌, drop, find, is_none, is_some, Some, option_map, IfOk, IfSome, OnOk, OnErr, if◌then◌else◌};
ghost use Rattle.std.specs.List.{All, flat_map, list_any, range_with_len};
ghost use Rattle.std.specs.Option.{option_copied};
ghost use Rattle.std.specs.Result.{result_ok};
ghost use Rattle.sw_data.specs.declared.answers.Notice.TheVariants as notice;
ghost use Rattle.sw_data.specs.declared.rows.JobPhase.TheVariants as job_phase;
ghost use Rattle.sw_list.specs.Tally.{count_of};
ghost use Rattle.sw_rules.specs.Jobs.{gets_value, is_equivalent, new_job_row};
ghost use Rattle.sw_rules.specs.Rows.{changed, first_job, is_in_phase, is_evaluating, is_fetching, is_first, is_installing, is_job, is_unfinished, is_waiting, last_job};
ghost use Rattle.sw_queue.specs.Kept.{AreFrom, followers_of};
ghost use Rattle.sw_queue.specs.Ready.{led_by, may_start};
ghost use Rattle.sw_queue.specs.Tables.{FitsJob, FollowersStay, HasPlace, given, has_head, has_job, with_phase, is_under_way, joined_in, noted, ready_job, scheduled_as, settled_all, told_at, told_of};

use crate::calls::{JobNotes, NewJob, NotReady, Scheduled};
use crate::equivalent::is_equivalent;
use crate::followers::Followers;
use crate::index::Index;
use crate::ready::Ready;
use std::alloc::Global;
use std::marker::Model;
use sw_data::{Job, JobPhase, JobRow, NoMemory, Notice, Settlement, Text};
use sw_list::Tally;
use sw_rules::Notices;

/// The jobs by number, in order of scheduling, and their queues by storage key and scope.
#[derive(Drop)]
pub struct Queues {
    rows: Vec<JobRow>,
    followers: Followers,
    index: Index,
    ready: Ready,
    // The keys of the unfinished jobs.
    keys: Tally,
}

impl Model for Queues {
    ghost use Rattle.std.specs.Prelude.{◌-◌, min};
    ghost use Rattle.std.specs.Vec.{vec_len, vec_capacity};
    ghost use Rattle.sw_queue.specs.Ready.{IsIndexed};
    ghost use Rattle.sw_queue.specs.Tables.{Table, spares};

    ghost Value = { Table };

    ghost view = { λ queues. record {
      rows = queues.rows.items;
      room = record {
        rows = min (min (vec_capacity queues.rows - vec_len queues.rows) queues.ready.spare)
            queues.keys.spare;
        lists = queues.followers.spare;
        followers = queues.followers.spares;
        queues = spares queues.index;
      };
    } };

    ghost invariant = { λ queues.
        IsIndexed queues.rows.items queues.followers.lists queues.index queues.ready queues.keys };
}

// The row of a job that was just scheduled.
fn new_row(job: Job, leader: Option<u32>) -> JobRow
    ensures { result ≡ new_job_row job leader }
{
    JobRow {
        job,
        leader,
        phase: JobPhase::Waiting,
        settled: None,
        registration: None,
        fetch: None,
        remembered: None,
        worker: None,
    }
}

// Whether a job waits.
fn is_waiting(phase: JobPhase) -> bool
    ensures { result ≡ is_waiting phase }
{
    matches!(phase, JobPhase::Waiting)
}

// Whether a job may start: it joined no other, waits, and stands first in its line.
fn may_start(row: &JobRow, index: &Index) -> bool
    ensures { result ≡ may_start index.now row.now }
{
    row.leader.is_none()
        && is_waiting(row.phase)
        && match index.first(row.job.key.as_bytes(), row.job.scope.as_bytes()) {
            Some(first) => first == row.job.number,
            None => false,
        }
}

// The job that has become the first of its line, where there is one, may start where it waits.
fn lead(next: Option<u32>, rows: &[JobRow], index: &Index, ready: &mut Ready)
    requires { IfSome next (λ number.
        (number < length rows.now) × (number < length ready.old.starting)) }
    ensures { ready.new ≡ led_by next index.now rows.now ready.old }
{
    if let Some(number) = next {
        let place = number as usize;
        ready.set_starting(place, may_start(&rows[place], index));
    }
}

// The promise of a job settles, where it has not settled.
fn settle_one(row: &mut JobRow, value: Settlement)
    ensures { row.new ≡ given value row.old }
{
    if row.settled.is_none() {
        row.settled = Some(value);
    }
}

// The promises of these jobs settle, and then that of the job that they follow.
fn settle_rows(rows: &mut [JobRow], job: u32, followers: &[u32], value: Settlement)
    requires numbers { AreFrom 0 rows.old }
    requires job { job < length rows.old }
    requires followers { All (λ follower. follower < length rows.old) followers.now }
    ensures { rows.new
        ≡ changed (is_job job) (given value) (settled_all value rows.old followers.now) }
{
    for follower in followers {
        settle_one(&mut rows[*follower as usize], value);
    }
    settle_one(&mut rows[job as usize], value);
}

// A job with a client is told the value of its promise, where it has none yet.
fn tell_one(row: &JobRow, value: Settlement, notices: &mut Notices)
    requires { 0 < notices.old.spare }
    ensures told { notices.new.rows ≡ notices.old.rows ++ told_of value row.now }
    ensures room { notices.old.spare ≤ notices.new.spare + 1 }
{
    if row.settled.is_none() && row.job.has_client {
        notices.push(Notice::Settled {
            job: row.job.number,
            value,
        });
    }
}

// These jobs are told, in this order.
fn tell_rows(rows: &[JobRow], jobs: &[u32], value: Settlement, notices: &mut Notices)
    requires jobs { All (λ job. job < length rows.now) jobs.now }
    requires room { length jobs.now ≤ notices.old.spare }
    ensures told { notices.new.rows
        ≡ notices.old.rows ++ flat_map (told_at value rows.now) jobs.now }
    ensures room { notices.old.spare ≤ notices.new.spare + length jobs.now }
{
    for job in jobs {
        tell_one(&rows[*job as usize], value, notices);
    }
}

// The key of a job that was just scheduled is counted, where the job joined no other.
fn count_key(keys: &mut Tally, row: &JobRow, key: Text)
    requires { 0 < keys.old.spare }
    ensures { (asked : List ℕ) → count_of keys.new asked ≡ count_of keys.old asked
        + (if is_none row.now.leader && bytes_eq key asked then 1 else 0) }
{
    if row.leader.is_none() {
        keys.add(key);
    }
}

// Whether a new job joins the last of its queue.
fn can_join(job: &Job, last: &JobRow) -> bool
    ensures { result ≡ (is_equivalent job.now last.now.job && is_none last.now.settled) }
{
    is_equivalent(job, &last.job) && last.settled.is_none()
}

impl Queues {
    /// No job; it takes no memory.
    pub fn new(alloc: Global) -> Queues
        ensures { result.rows ≡ [] }
    {
        Queues {
            rows: Vec::new(alloc),
            followers: Followers::new(alloc),
            index: Index::new(alloc),
            ready: Ready::new(alloc),
            keys: Tally::new(alloc),
        }
    }

    /// How many jobs were scheduled.
    pub fn len(&self) -> usize
        ensures { result ≡ length self.now.rows }
    {
        self.rows.len()
    }

    /// The rows of all jobs, by their numbers. It takes no memory.
    pub fn rows(&self) -> &[JobRow]
        ensures { result.now ≡ self.now.rows }
    {
        &self.rows
    }

    /// Each job stands at its number.
    #[tactic(auto, using(crate::proofs::Places::numbered_from))]
    pub fn are_numbered(&self)
        ensures { map (λ row. row.job.number) self.now.rows
            ≡ range_with_len 0 (length self.now.rows) }
    {
        let _ = &self.rows;
    }

    /// The row of a job. None exactly where no such job was scheduled. It takes no memory.
    pub fn row(&self, job: u32) -> Option<&JobRow>
        ensures { option_copied result ≡ find (is_job job) self.now.rows }
    {
        self.rows.get(job as usize)
    }

    /// The jobs that joined a job, in order. It takes no memory.
    pub fn followers(&self, job: u32) -> &[u32]
        ensures { result.now ≡ followers_of job self.now.rows }
    {
        self.followers.at(job as usize)
    }

    /// The first job of the queue of a key and a scope. It takes no memory.
    #[tactic(auto, using(crate::proofs::Reading::first_number))]
    pub fn first(&self, key: &Text, scope: &Text) -> Option<u32>
        ensures { result
            ≡ option_map (λ row. row.job.number) (first_job key.now scope.now self.now.rows) }
    {
        self.index.first(key.as_bytes(), scope.as_bytes())
    }

    // The last job of the queue of a key and a scope. It takes no memory.
    #[tactic(auto, using(crate::proofs::Reading::last_number))]
    fn last(&self, key: &Text, scope: &Text) -> Option<u32>
        ensures { result
            ≡ option_map (λ row. row.job.number) (last_job key.now scope.now self.now.rows) }
    {
        self.index.last(key.as_bytes(), scope.as_bytes())
    }

    /// The first job that may start: it joined no other, waits, and stands first in its queue. It takes no memory, and time
    /// in the number of the blocks of flags and in the length of two of them.
    pub fn first_waiting(&self) -> Option<&JobRow>
        ensures { option_copied result
            ≡ find (λ row. is_in_phase is_waiting row && is_first self.now.rows row) self.now.rows }
    {
        self.ready.first_starting(&self.rows)
    }

    /// The first job at or behind a number whose fetch is in flight. It takes no memory, and time as `first_waiting` does.
    pub fn next_fetching(&self, from: u32) -> Option<&JobRow>
        ensures { option_copied result ≡ find (is_in_phase is_fetching) (drop from self.now.rows) }
    {
        self.ready.next_fetching(&self.rows, from)
    }

    /// The first job whose worker is to be evaluated. It takes no memory, and time as `first_waiting` does.
    pub fn first_evaluating(&self) -> Option<&JobRow>
        ensures { option_copied result ≡ find (is_in_phase is_evaluating) self.now.rows }
    {
        self.ready.first_evaluating(&self.rows)
    }

    /// The first job at or behind a number whose worker installs. It takes no memory, and time as `first_waiting` does.
    pub fn next_installing(&self, from: u32) -> Option<&JobRow>
        ensures { option_copied result ≡ find (is_in_phase is_installing) (drop from self.now.rows) }
    {
        self.ready.next_installing(&self.rows, from)
    }

    /// Whether a job of a key joined no other and isn't done. It takes no memory.
    pub fn has_unfinished_of(&self, key: &Text) -> bool
        ensures { result ≡ list_any (λ row. is_unfinished row && bytes_eq row.job.key key.now)
            self.now.rows }
    {
        self.keys.has(key)
    }

    // The job that a new job joins. It takes no memory.
    fn leader(&self, job: &Job) -> Option<u32>
        ensures { result ≡ joined_in self.now.rows job.now }
    {
        let Some(number) = self.last(&job.key, &job.scope) else {
            return None;
        };
        if can_join(job, &self.rows[number as usize]) {
            Some(number)
        } else {
            None
        }
    }

    /// Starts the first job of the queue of a key and a scope, where that one waits. It takes no memory.
    pub fn start(&mut self, key: &Text, scope: &Text) -> Result<u32, NotReady>
        ensures answer { result_ok result ≡ ready_job key.now scope.now self.old.rows }
        ensures ok { IfOk result (λ job. self.new ≡ record self.old {
          rows = changed (is_job job) (with_phase job_phase.Fetching) self.old.rows;
        }) }
        ensures err { OnErr result (self.new ≡ self.old) }
        ensures head { IfOk result (λ job.
            has_head (λ row. not (is_waiting row.phase)) job self.new.rows ≡ true) }
        ensures followers { FollowersStay self.old.rows self.new.rows }
    {
        let Some(number) = self.first(key, scope) else {
            return Err(NotReady);
        };
        let row = &mut self.rows[number as usize];
        if !is_waiting(row.phase) {
            return Err(NotReady);
        }
        row.phase = JobPhase::Fetching;
        self.ready.set_phase(number as usize, JobPhase::Fetching);
        Ok(number)
    }

    /// A job that runs gets these notes. It takes no memory.
    pub fn note(&mut self, job: u32, notes: JobNotes)
        requires first { has_head (λ row. not (is_waiting row.phase)) job self.old.rows ≡ true }
        requires runs { is_under_way notes.phase ≡ true }
        ensures noted { self.new
            ≡ record self.old { rows = changed (is_job job) (noted notes) self.old.rows } }
        ensures head { has_head (λ row. not (is_waiting row.phase)) job self.new.rows ≡ true }
        ensures followers { FollowersStay self.old.rows self.new.rows }
    {
        let row = &mut self.rows[job as usize];
        row.phase = notes.phase;
        row.registration = notes.registration;
        row.fetch = notes.fetch;
        row.remembered = notes.remembered;
        row.worker = notes.worker;
        self.ready.set_phase(job as usize, notes.phase);
    }

    /// The promises of a queued job and of the jobs that joined it get this value, where they have none. It takes no
    /// memory, and time in the number of those jobs alone.
    pub fn settle(&mut self, job: u32, value: Settlement)
        requires { has_job (λ row. is_none row.leader) job self.old.rows ≡ true }
        ensures settled { self.new ≡ record self.old {
          rows = changed (gets_value job)
              (λ row. record row { settled = Some value }) self.old.rows;
        } }
        ensures heads { has_job (is_first self.old.rows) job self.old.rows ≡ true
            → has_head (λ row. is_some row.settled) job self.new.rows ≡ true }
        ensures followers { FollowersStay self.old.rows self.new.rows }
    {
        let followers = self.followers.at(job as usize);
        settle_rows(self.rows.as_mut_slice(), job, followers, value);
    }

    /// Tells the value that `settle` gives a queued job and the jobs that joined it: the job first, then the others in
    /// order, each where it has a client and no value yet. It takes no memory, and time in the number of those jobs alone.
    pub fn tell_settled(&self, job: u32, value: Settlement, notices: &mut Notices)
        requires there { has_job (λ row. is_none row.leader) job self.now.rows ≡ true }
        requires room { length (followers_of job self.now.rows) < notices.old.spare }
        ensures told { notices.new.rows ≡ notices.old.rows
            ++ map (λ row. notice.Settled row.job.number value)
            (filter (λ row. gets_value job row && row.job.has_client) self.now.rows) }
        ensures room { notices.old.spare
            ≤ notices.new.spare + (length (followers_of job self.now.rows) + 1) }
    {
        let place = job as usize;
        tell_one(&self.rows[place], value, notices);
        tell_rows(
            self.rows.as_slice(),
            self.followers.at(place),
            value,
            notices,
        );
    }

    /// The first job of its queue, whose promise has settled, is done and leaves its queue, and the next one of it may
    /// start. It takes no memory.
    pub fn finish(&mut self, job: u32)
        requires { has_head (λ row. is_some row.settled) job self.old.rows ≡ true }
        ensures done { self.new.rows
            ≡ changed (is_job job) (with_phase job_phase.Done) self.old.rows }
        ensures followers { FollowersStay self.old.rows self.new.rows }
    {
        let place = job as usize;
        let gone = &self.rows[place].job;
        self.index
            .drop_first(gone.key.as_bytes(), gone.scope.as_bytes());
        let next = self.index.first(gone.key.as_bytes(), gone.scope.as_bytes());
        self.keys.take(&gone.key);
        self.rows[place].phase = JobPhase::Done;
        self.ready.set_phase(place, JobPhase::Done);
        lead(next, &self.rows, &self.index, &mut self.ready);
    }

    // Makes room for a job among the followers of the one that it joins, or in its queue.
    fn make_place(&mut self, alloc: Global, job: &Job) -> Result<Option<u32>, NoMemory>
        ensures same { self.new.rows ≡ self.old.rows }
        ensures leader { IfOk result (λ leader. leader ≡ joined_in self.old.rows job.now) }
        ensures place { IfOk result (λ leader. HasPlace self.new.room job.now leader) }
    {
        let Some(leader) = self.leader(job) else {
            self.index
                .make_room(alloc, job.key.as_bytes(), job.scope.as_bytes())?;
            return Ok(None);
        };
        self.followers.make_room_at(leader as usize)?;
        Ok(Some(leader))
    }

    /// Makes the row of a job, whose number is the count of rows, and the room for it. The rows stay.
    pub fn schedule_row(&mut self, alloc: Global, job: Job) -> Result<NewJob, NoMemory>
        requires { job.number ≡ length self.old.rows }
        ensures same { self.new.rows ≡ self.old.rows }
        ensures row { IfOk result (λ new. new
            ≡ new_job_row job (joined_in self.old.rows job)) }
        ensures fits { IfOk result (λ new. FitsJob new self.new) }
    {
        let leader = self.make_place(alloc, &job)?;
        self.rows.reserve(1)?;
        self.followers.make_room()?;
        self.ready.make_room()?;
        self.keys.make_room()?;
        let key = job.key.copy(alloc)?;
        Ok(NewJob {
            row: new_row(job, leader),
            followers: Vec::new(alloc),
            key,
        })
    }

    /// Adds the row of a job, which stands in its queue or has joined the last one of it. It takes no memory.
    pub fn schedule_put(&mut self, row: NewJob) -> Scheduled
        requires { FitsJob row self.old }
        ensures rows { self.new.rows ≡ self.old.rows ++ row ∷ [] }
        ensures scheduled { result ≡ scheduled_as row.leader }
    {
        let NewJob {
            row,
            followers,
            key,
        } = row;
        let scheduled = match row.leader {
            Some(leader) => {
                self.followers.add(leader as usize, row.job.number);
                Scheduled::Joined(leader)
            }
            None => {
                self.index.add(
                    row.job.key.as_bytes(),
                    row.job.scope.as_bytes(),
                    row.job.number,
                );
                Scheduled::Queued
            }
        };
        self.followers.begin(followers);
        count_key(&mut self.keys, &row, key);
        self.ready.add(may_start(&row, &self.index));
        self.rows.push_reserved(row);
        scheduled
    }

    /// Schedules a job, whose number is the count of rows: it joins the last one of its queue, where the two are
    /// equivalent and that one's promise has not settled, or stands last in the queue.
    pub fn schedule(&mut self, alloc: Global, job: Job) -> Result<Scheduled, NoMemory>
        requires { job.number ≡ length self.old.rows }
        ensures ok { OnOk result (self.new.rows
            ≡ self.old.rows ++ new_job_row job (joined_in self.old.rows job) ∷ []) }
        ensures scheduled { IfOk result (λ scheduled. scheduled
            ≡ scheduled_as (joined_in self.old.rows job)) }
        ensures err { OnErr result (self.new.rows ≡ self.old.rows) }
    {
        let row = self.schedule_row(alloc, job)?;
        Ok(self.schedule_put(row))
    }
}
