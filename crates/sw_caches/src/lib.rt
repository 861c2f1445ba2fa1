//! The caches of all keys: batches, queries, matches and names, each equal to its definition.
//!
//! The pairs of a cache stand in the order of their puts, each behind a number of its own, and an
//! index finds the numbers of an address by its digests, without fragment and also without query.
//! It has no other number but those of a plan that was made and isn't carried out yet. A number that
//! it finds is looked up, and its pair is tested. So no other pair is moved, copied or compared for
//! a put or a query. The caches stand in the order of their creation, and those of a key, and that of
//! a key and a name, are found by maps.
#![tactic(auto)]

mod carry;
mod entries;
mod entry;
mod fault;
mod hits;
mod laws;
mod ops;
mod pairs;
mod plan;
mod rows;
mod rules;
mod slots;
mod sums;
mod table;

pub use entry::Entry;
pub use fault::{BatchFault, CacheFault};
pub use hits::Found;
pub use laws::bytes_are_those_of_changes;
pub use ops::apply_ops;
pub use rules::has_http_scheme;
pub use table::{CachePlan, Caches, Hit, NewCache};
