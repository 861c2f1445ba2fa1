//! Query matching: combined values, the members of Vary, and the items of a cache that a query
//! finds.
//!
//! Combined values and members are compared as streams over the header lines; a call takes memory
//! only where its answer holds some.
#![tactic(auto)]

mod matching;
mod stream;
mod values;
mod vary;

pub use matching::{finds_nothing, is_get, matches_pair, number_of, query, request_matches};
pub use values::{combined, same_values};
pub use vary::varies_on_all;
