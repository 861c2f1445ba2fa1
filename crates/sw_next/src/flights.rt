//! The fetches that passes have in flight.

ghost use Rattle.std.specs.Prelude.{◌≡◌, ◌<◌, ◌^◌, false, filter, is_some, length};
ghost use Rattle.std.specs.List.{list_any};
ghost use Rattle.std.specs.Option.{option_map_or};
ghost use Rattle.sw_lane.specs.Picked.{in_flight, is_task};

use sw_data::Task;
use sw_state::HostTables;

// Whether a pass has taken this task up.
fn has_taken(flight: &Option<Task>, task: Task) -> bool
    ensures { result ≡ option_map_or (is_task task) flight.now false }
{
    match flight {
        Some(taken) => task == *taken,
        None => false,
    }
}

// Whether one of the passes has taken this task up.
fn is_taken(flights: &[Option<Task>], task: Task) -> bool
    ensures { result ≡ list_any (λ one. option_map_or (is_task task) one false) flights.now }
{
    flights.iter().any(|flight| has_taken(flight, task))
}

// Whether a task is in flight.
pub(crate) fn is_in_flight(flights: &[Option<Task>], task: Task) -> bool
    ensures { result ≡ list_any (is_task task) (in_flight flights.now) }
{
    is_taken(flights, task)
}

// How many of the passes have taken a task up.
fn taken(flights: &[Option<Task>]) -> usize
    ensures { result ≡ length (filter (λ one. is_some one) flights.now) }
{
    flights.iter().filter(|flight| flight.is_some()).count()
}

/// How many tasks are in flight.
pub fn many_in_flight(flights: &[Option<Task>]) -> u32
    requires { length flights.now < 2 ^ 32 }
    ensures { result ≡ length (in_flight flights.now) }
{
    taken(flights) as u32
}
