//! Items of a cache that a query matches.

ghost use Rattle.std.specs.Prelude.{◌≡◌, true, IfOk, option_copied};
ghost use Rattle.std.specs.Option.{option_map_or};
ghost use Rattle.sw_rules.specs.Matching.{finds_nothing, is_get, matches, matches_pair, query_of, same_address, vary_allows};

use crate::vary::vary_allows;
use std::alloc::Global;
use sw_data::address::{without_fragment, without_query};
use sw_data::{Header, NoMemory, Options, Request, Response};

/// The method is GET.
pub fn is_get(request: &Request) -> bool
    ensures { result ≡ is_get request.now }
{
    request.method.as_str() == "GET"
}

// The addresses are equal without fragments, and with ignoreSearch also without queries.
fn same_address(options: Options, left: &[u8], right: &[u8]) -> bool
    ensures { result ≡ same_address options left.now right.now }
{
    if options.ignore_search {
        without_query(left) == without_query(right)
    } else {
        without_fragment(left) == without_fragment(right)
    }
}

/// A query matches an item (Service Workers, Appendix A, "Request Matches Cached Item"). It takes
/// no memory.
pub fn request_matches(
    query: &Request,
    item: &Request,
    response: Option<&Response>,
    options: Options,
) -> bool
    ensures { result ≡ matches query.now options item.now (option_copied response.entry) }
{
    (options.ignore_method || is_get(item))
        && same_address(options, query.url.as_bytes(), item.url.as_bytes())
        && (options.ignore_vary || is_allowed(query, item, response))
}

// The Vary value of a response, if there is one, lets the query have it.
fn is_allowed(query: &Request, item: &Request, response: Option<&Response>) -> bool
    ensures { result ≡ option_map_or (vary_allows query.now.headers item.now.headers)
        (option_copied response.entry) true }
{
    match response {
        Some(response) => {
            vary_allows(query.headers.as_slice(), item.headers.as_slice(), response)
        }
        None => true,
    }
}

/// A query with another method than GET finds nothing unless the method is ignored. It takes no
/// memory.
pub fn finds_nothing(query: &Request, options: Options) -> bool
    ensures { result ≡ finds_nothing query.now options }
{
    !options.ignore_method && !is_get(query)
}

/// A query matches a pair of a cache. It takes no memory.
pub fn matches_pair(query: &Request, options: Options, pair: &(Request, Response)) -> bool
    ensures { result ≡ matches_pair query.now options pair.now }
{
    request_matches(query, &pair.0, Some(&pair.1), options)
}

/// The places of the pairs that a query matches, rising (Service Workers, Appendix A, "Query
/// Cache"); none where its method isn't GET and isn't ignored.
pub fn query(
    alloc: Global,
    pairs: &[(Request, Response)],
    query: &Request,
    options: Options,
) -> Result<Vec<u32>, NoMemory>
    ensures { IfOk result (λ places. places.items ≡ query_of pairs.now query.now options) }
{
    let mut places = Vec::new(alloc);
    if finds_nothing(query, options) {
        return Ok(places);
    }
    for place in 0..pairs.len() {
        if matches_pair(query, options, &pairs[place]) {
            places.push(number_of(place)?)?;
        }
    }
    Ok(places)
}

/// A place as a number; a place that passes the type is want of memory.
pub fn number_of(place: usize) -> Result<u32, NoMemory>
    ensures { IfOk result (λ number. number ≡ place) }
{
    match u32::try_from(place) {
        Ok(number) => Ok(number),
        Err(_) => Err(NoMemory),
    }
}
