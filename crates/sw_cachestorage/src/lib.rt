//! The actions on caches, `addAll` up to its fetches and from their end on, whether a key is busy, and forgetting
//! it: each is worked out with all its room before it is done.
#![tactic(auto)]

mod act;
mod adding;
mod caching;
mod changes;
mod ended;
mod event;
mod forgetting;
mod lookups;
mod place;
mod writes;

pub use act::{CacheAct, CacheStep};
pub use adding::{AddAllStep, NewAddAll, add_all, add_all_at, start_all, start_called};
pub use caching::{delete_cache, open_cache};
pub use ended::{AddedStep, added, settle_added};
pub use event::{finish_on_caches, is_on_caches, prepare_on_caches};
pub use forgetting::{forget, is_busy, mapped_many};
pub use place::place_key;
pub use writes::{batch_ops, delete_request, put_response};
