//! The keys of pages, and the host's forget of a key.

ghost use Rattle.std.specs.Prelude.{◌≡◌, ◌++◌, codes, IfOk};
ghost use Rattle.std.specs.Option.{option_copied};
ghost use Rattle.sw_bucket.specs.Eviction.{forget_event, forget_page, is_reached, key_partition};
ghost use Rattle.sw_bucket.specs.Uses.{page_key};
ghost use Rattle.sw_data.specs.Keys.{key_origin};

use std::alloc::Global;
use sw_cachestorage::place_key;
use sw_data::{Boxed, Event, NoMemory, Place, Text, Who};

/// The key of a page, where it has one.
pub(crate) fn page_key(alloc: Global, place: &Place) -> Result<Option<Text>, NoMemory>
    ensures { IfOk result (λ key. key ≡ page_key place.now) }
{
    match place_key(alloc, place)? {
        Ok(key) => Ok(Some(key)),
        Err(_) => Ok(None),
    }
}

// The origin of a key.
#[tactic(auto, using(std::proofs::lemmas::Str::Pattern::split_once_first, crate::proofs::Parts::all_before))]
fn origin(key: &Text) -> &str
    ensures { result.now ≡ key_origin key.now }
{
    match key.as_str().split_once('^') {
        Some((front, _)) => front,
        None => key.as_str(),
    }
}

// The partition of a key.
#[tactic(auto, using(std::proofs::lemmas::Str::Pattern::split_once_first, crate::proofs::Parts::rest_there, crate::proofs::Parts::rest_gone))]
fn partition(key: &Text) -> Option<&str>
    ensures { option_copied result ≡ key_partition key.now }
{
    match key.as_str().split_once('^') {
        Some((_, rest)) => Some(rest),
        None => None,
    }
}

// The address of the page at an origin.
fn page_at(alloc: Global, origin: &str) -> Result<Text, NoMemory>
    ensures { IfOk result (λ at. at ≡ origin.now ++ codes "/") }
{
    let mut at = String::from_str(alloc, origin)?;
    at.push_str("/")?;
    Ok(Text::from_string(at))
}

// A text that equals this one, where there is one.
fn text_of(alloc: Global, text: Option<&str>) -> Result<Option<Boxed<Text>>, NoMemory>
    ensures { IfOk result (λ own. own ≡ option_copied text.entry) }
{
    match text {
        Some(text) => Ok(Some(Boxed::new(alloc, Text::of(alloc, text)?)?)),
        None => Ok(None),
    }
}

// The page by which the host forgets a key.
fn forget_page(alloc: Global, key: &Text) -> Result<Place, NoMemory>
    ensures { IfOk result (λ place. place ≡ forget_page key.now) }
{
    Ok(Place {
        at: page_at(alloc, origin(key))?,
        partition: text_of(alloc, partition(key))?,
    })
}

/// The event by which the host forgets a key.
pub fn forget_event(alloc: Global, key: &Text) -> Result<Event, NoMemory>
    ensures { IfOk result (λ event. event ≡ forget_event key.now) }
{
    Ok(Event::Forget {
        who: Who::Host,
        place: forget_page(alloc, key)?,
    })
}

/// Whether the host's forget of a key forgets it and no other.
pub(crate) fn is_reached(alloc: Global, key: &Text) -> Result<bool, NoMemory>
    ensures { IfOk result (λ reached. reached ≡ is_reached key.now) }
{
    let place = forget_page(alloc, key)?;
    match page_key(alloc, &place)? {
        Some(own) => Ok(*key == own),
        None => Ok(false),
    }
}
