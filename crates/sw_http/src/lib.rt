//! Requests and responses: each call is its rule. JavaScript's media types are passed on.
//!
//! Tokens, names and values are those of `sw_data`, statuses those of `http`.
#![tactic(auto)]

mod fault;
mod lines;
mod message;

pub use fault::HttpFault;
pub use lines::{good_names, good_values, normal_lines};
pub use message::{BODY_LIMIT, normal_method, request, response};
pub use sw_data::is_javascript;
