//! The answers of the host's events; none where the event isn't enabled.

ghost use Rattle.std.specs.Prelude.{◌≡◌, List, ℕ};
ghost use Rattle.sw_activate.specs.Answers as activating;
ghost use Rattle.sw_data.specs.Addresses.{without_fragment};
ghost use Rattle.sw_install.specs.Answers as installing;
ghost use Rattle.sw_ledgers.specs.Drawn.{FitsDraw};
ghost use Rattle.sw_install.specs.Runs as runs;
ghost use Rattle.sw_tables.specs.Lent.{Rest};

use sw_data::Answer;
use sw_install::{FetchedAnswer, Ran};
use sw_ledgers::{Draws, NewDraw};
use sw_tables::NotNow;

/// The answer of a job that ran.
pub fn ran_answer(ran: Result<Ran, NotNow>) -> Option<Answer>
    ensures { result ≡ runs.ran_answer ran }
{
    match ran {
        Ok(Ran::Finished) => Some(Answer::Finished),
        Ok(Ran::Fetch(ordinal)) => Some(Answer::Fetch(ordinal)),
        Err(NotNow) => None,
    }
}

/// The fetch of a job that ran is drawn, where the job goes on to it.
pub fn draw_where(ran: Result<Ran, NotNow>, draw: NewDraw, draws: &mut Draws)
    requires { FitsDraw draw draws.old }
    ensures { (script : List ℕ) (rest : Rest) → without_fragment script ≡ draw
        → rest.draws ≡ draws.old.rows
        → record rest { draws = draws.new.rows } ≡ runs.drawn_by ran script rest }
{
    if let Ok(Ran::Fetch(_)) = ran {
        let _ = draws.draw_put(draw);
    }
}

/// The answer of an unregister job that ran.
pub fn finished_answer(ran: Result<(), NotNow>) -> Option<Answer>
    ensures { result ≡ activating.finished_answer ran }
{
    match ran {
        Ok(()) => Some(Answer::Finished),
        Err(NotNow) => None,
    }
}

/// The answer of the end of a fetch of a job's script.
pub fn fetched_answer(fetched: Result<FetchedAnswer, NotNow>) -> Option<Answer>
    ensures { result ≡ installing.fetched_answer fetched }
{
    match fetched {
        Ok(FetchedAnswer::Rejected) => Some(Answer::Rejected),
        Ok(FetchedAnswer::Unchanged) => Some(Answer::Unchanged),
        Ok(FetchedAnswer::Changed) => Some(Answer::Changed),
        Err(NotNow) => None,
    }
}

/// The answer of an evaluation.
pub fn evaluated_answer(evaluated: Result<bool, NotNow>) -> Option<Answer>
    ensures { result ≡ installing.evaluated_answer evaluated }
{
    match evaluated {
        Ok(true) => Some(Answer::Installing),
        Ok(false) => Some(Answer::Threw),
        Err(NotNow) => None,
    }
}

/// The answer of the end of an install handler.
pub fn installed_answer(installed: Result<bool, NotNow>) -> Option<Answer>
    ensures { result ≡ installing.installed_answer installed }
{
    match installed {
        Ok(true) => Some(Answer::Ok),
        Ok(false) => Some(Answer::Failed),
        Err(NotNow) => None,
    }
}

/// The answer of an owed Try Activate.
pub fn activate_answer(tried: Result<Option<u32>, NotNow>) -> Option<Answer>
    ensures { result ≡ activating.activate_answer tried }
{
    match tried {
        Ok(Some(worker)) => Some(Answer::Worker(worker)),
        Ok(None) => Some(Answer::None),
        Err(NotNow) => None,
    }
}

/// The answer of the end of an activate handler.
pub fn ok_answer(activated: Result<(), NotNow>) -> Option<Answer>
    ensures { result ≡ activating.ok_answer activated }
{
    match activated {
        Ok(()) => Some(Answer::Ok),
        Err(NotNow) => None,
    }
}
