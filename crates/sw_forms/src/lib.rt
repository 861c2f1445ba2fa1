//! Reads the JSON objects of a recording by their members: fetch lines with the calls of their handlers, and the parts of
//! lane lines on caches.
//!
//! A part is exactly what the grammar gives, or the flaw of it that is tested first.
#![tactic(auto)]

mod caches;
mod calls;
mod error;
mod exchanges;
mod fetches;
mod flaw;
mod limits;
mod lists;
mod members;
mod word;

pub use caches::{
    add_all_parts, batch_parts, delete_parts, match_parts, name_member, put_parts, query_parts,
};
pub use error::{Limit, LineCause, RecordingError};
pub use exchanges::response_parts;
pub use fetches::{address_part, error_line, fetch_line};
pub use flaw::{Flaw, NO_FORM, Part, both, boxed_part, error_at, needs};
pub use limits::{ACTIONS_LIMIT, CALLS_LIMIT, LANES_LIMIT, PARTITION_LIMIT, RECORDING_LIMIT};
pub use lists::{FromValue, list_of};
pub use members::{
    has_only, number_member, number_of, short, short_text_member, short_text_option, truth_of,
};
pub use word::{Word, word_member};
