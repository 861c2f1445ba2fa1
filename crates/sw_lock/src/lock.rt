//! The lock, and what its calls hand back besides.
ghost use Rattle.std.specs.Prelude.{◌≡◌, ◌<◌};

use crate::logged::Logged;
use crate::pass::Pass;
use crate::rule::{Start, Turns};
use crate::view::View;
use atomic_table::Table;
use std::alloc::Global;

/// A value and the turns of its passes.
#[derive(Drop)]
pub struct Shared<T: Logged> {
    pub(crate) table: Table<Option<T>, View<T, T::Entry>, Start<T>, Turns<T>, Global>,
    pub(crate) made: u32,
    pub(crate) number: u64,
    ghost sized: { (table.shared.table_id.words ≡ 3) × (table.shared.table_id.slots ≡ 1) },
    ghost some: { 0 < made },
    ghost told: { made ≡ table.shared.key.made },
    ghost numbered: { number ≡ table.shared.key.number },
}

/// Fewer passes were given than were made. All comes back.
#[derive(Drop)]
pub struct Missing<T: Logged> {
    pub shared: Shared<T>,
    pub passes: Vec<Pass<T>>,
}
