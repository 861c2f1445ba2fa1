//! Addresses, trust, storage keys and the bound of a scope: each call is its rule.
//!
//! Addresses are parsed, joined and serialized by `url`.
#![tactic(auto)]

mod address;
mod fault;
mod origin;
mod page;
mod parsing;
mod trust;

pub use address::{
    http_address, resolve, scope_url, script_url, serialized, without_fragment, without_query,
};
pub use fault::UrlFault;
pub use origin::{is_within_bound, key_of, max_scope, same_origin};
pub use page::{PageFault, page_key};
pub use trust::is_trustworthy;
