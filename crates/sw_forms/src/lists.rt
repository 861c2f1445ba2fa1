//! Arrays of parts of one kind.

ghost use Rattle.std.specs.Prelude.{◌≡◌, Result, map, IfOk};
ghost use Rattle.serde_json.specs.Data.{Data};
ghost use Rattle.serde_json.specs.View.{view};
ghost use Rattle.sw_forms.specs.declared.flaw.Flaw.{Flaw};
ghost use Rattle.sw_forms.specs.Members as members;

use crate::flaw::{Flaw, NO_FORM, Part, first_of, needs};
use crate::members::{as_list, short_text_of};
use serde_json::Value;
use std::alloc::Global;
use sw_data::{Items, NoMemory, Text};

/// What a JSON value is read as.
pub trait FromValue: Drop {
    ghost use Rattle.std.specs.Prelude.{◌≡◌, Result, IfOk};
    ghost use Rattle.serde_json.specs.Data.{Data};
    ghost use Rattle.serde_json.specs.View.{view};
    ghost use Rattle.sw_forms.specs.declared.flaw.Flaw.{Flaw};

    /// What the value is, or its flaw.
    ghost reads: { Data → Result Self Flaw };

    /// The part that a value is.
    fn from_value(alloc: Global, value: &Value) -> Part<Self>
        ensures { IfOk result (λ part. part ≡ reads (view value.now)) };
}

impl FromValue for Text {
    ghost use Rattle.sw_forms.specs.Members.{short_text_of};

    ghost reads = { short_text_of };

    fn from_value(alloc: Global, value: &Value) -> Part<Text> {
        short_text_of(alloc, value)
    }
}

// The parts so far and a further one.
#[tactic(auto, unfolding(crate::specs::Flaws::both))]
fn with_part<T: Drop>(parts: Result<Items<T>, Flaw>, next: Result<T, Flaw>) -> Part<Items<T>>
    ensures { IfOk result (λ all. all ≡ members.with_part parts next) }
{
    match (parts, next) {
        (Ok(mut parts), Ok(part)) => {
            parts.push(part)?;
            Ok(Ok(parts))
        }
        (Err(why), Ok(_)) | (Ok(_), Err(why)) => Ok(Err(why)),
        (Err(why), Err(other)) => Ok(Err(first_of(why, other))),
    }
}

// Each of the values is such a part.
#[tactic(auto, unfolding(crate::specs::Flaws::both))]
fn each_of<T: FromValue>(alloc: Global, values: &[Value]) -> Part<Items<T>>
    ensures { IfOk result (λ parts. parts
        ≡ members.each_of T.reads (map view values.now)) }
{
    let mut parts = Ok(Items::new(alloc));
    for value in values {
        parts = with_part(parts, T::from_value(alloc, value)?)?;
    }
    Ok(parts)
}

/// An array of such parts, within a limit on their count.
pub fn list_of<T: FromValue>(
    alloc: Global,
    most: usize,
    flaw: Flaw,
    value: &Value,
) -> Part<Items<T>>
    ensures { IfOk result (λ parts. parts
        ≡ members.list_of most flaw T.reads (view value.now)) }
{
    match as_list(value) {
        Some(values) => {
            let parts = each_of(alloc, values)?;
            Ok(needs(values.len() <= most, flaw, parts))
        }
        None => Ok(Err(NO_FORM)),
    }
}
