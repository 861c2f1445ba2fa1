//! A table, and the calls of a row on it, one after the other.

use crate::row::{Answer, list_of};
use serde_json::Value;
use std::alloc::Global;

/// A table that is called.
pub trait Table {
    /// The answer to a call: an array of its word and its parts.
    fn call(&mut self, alloc: Global, parts: &[Value]) -> Answer;
}

/// The answers of a table to calls, with spaces between them.
pub fn answers<T: Table>(alloc: Global, mut table: T, calls: &[Value]) -> Answer
where
    T: Drop,
{
    let mut all = String::new(alloc);
    for call in calls {
        if !all.is_empty() {
            all.push_str(" ")?;
        }
        let answer = table.call(alloc, list_of(call)?)?;
        all.push_str(answer.as_str())?;
    }
    Ok(all)
}
