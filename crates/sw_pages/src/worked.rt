//! What an action of a page comes to, before it is done.

ghost use Rattle.std.specs.Prelude.{◌≡◌};
ghost use Rattle.sw_data.specs.declared.answers.Settlement.TheVariants as settlement;

use sw_client::NewClient;
use sw_data::{Answer, Fault, Settlement, Text};
use sw_ledgers::Awaited;
use sw_queue::NewJob;
use sw_worker::NewEvent;

/// What is done to the tables, with its room.
#[derive(Drop)]
pub enum PageAct {
    Nothing,
    /// The client is added last.
    Open(NewClient),
    /// The client leaves the registration that it uses, and is removed.
    Close(u32),
    /// The job is scheduled.
    Schedule(NewJob),
    /// The skip waiting flag of a worker of this registration is set, and Try Activate runs.
    SkipWaiting {
        registration: u32,
        worker: u32,
    },
    /// The worker of this registration claims the clients that match it.
    Claim {
        registration: u32,
        worker: u32,
    },
    /// The fetch event begins.
    Begin(NewEvent),
    /// The fetch event of a worker of this registration ends.
    End {
        event: u32,
        registration: u32,
    },
    /// The registration gets a flag and a value of its navigation preload.
    Preload {
        registration: u32,
        on: bool,
        value: Text,
    },
}

/// An action of a page, worked out: its answer, what it does, and what the promise of the action waits for, where it has
/// one.
#[derive(Drop)]
pub struct Worked {
    pub answer: Answer,
    pub act: PageAct,
    pub awaited: Option<Awaited>,
}

/// An answer that leaves all as it is.
pub fn answered(answer: Answer) -> Worked
    ensures { result ≡ record { answer = answer; act = PageAct.Nothing; awaited = None } }
{
    Worked {
        answer,
        act: PageAct::Nothing,
        awaited: None,
    }
}

/// A fault, which the promise of the action gets.
pub fn rejected(why: Fault) -> Worked
    ensures { result ≡ record {
      answer = Answer.Fault why;
      act = PageAct.Nothing;
      awaited = Some (Awaited.Value (settlement.Fault why));
    } }
{
    Worked {
        answer: Answer::Fault(why),
        act: PageAct::Nothing,
        awaited: Some(Awaited::Value(Settlement::Fault(why))),
    }
}
