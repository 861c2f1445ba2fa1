//! Which registration each scope of a storage key has, found without a scan.
#![tactic(auto)]

mod key_scopes;
pub mod laws;
mod lengths;
mod plain_scan;
mod scope_map;
mod steps;

pub use plain_scan::scan;
pub use scope_map::{NewScope, ScopeMap};
pub use steps::Steps;
