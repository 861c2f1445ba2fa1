//! Whether two calls of handlers are the same. No call takes memory.

ghost use Rattle.std.specs.Prelude.{◌≡◌};
ghost use Rattle.sw_data.specs.Sameness.{same_call, same_header, same_list, same_op, same_options, same_request, same_response, same_truth};

use crate::{Call, Header, Op, Options, Request, Response};

fn same_truth(left: bool, right: bool) -> bool
    ensures { result ≡ same_truth left right }
{
    left == right
}

fn same_header(left: &Header, right: &Header) -> bool
    ensures { result ≡ same_header left.now right.now }
{
    left.name == right.name && left.value == right.value
}

fn same_headers(mut left: &[Header], mut right: &[Header]) -> bool
    ensures { result ≡ same_list same_header left.now right.now }
{
    while let ([first, rest @ ..], [other, others @ ..]) = (left, right) {
        if !same_header(first, other) {
            return false;
        }
        left = rest;
        right = others;
    }
    left.is_empty() && right.is_empty()
}

fn same_request(left: &Request, right: &Request) -> bool
    ensures { result ≡ same_request left.now right.now }
{
    left.method == right.method
        && left.url == right.url
        && same_headers(left.headers.as_slice(), right.headers.as_slice())
}

fn same_requests(mut left: &[Request], mut right: &[Request]) -> bool
    ensures { result ≡ same_list same_request left.now right.now }
{
    while let ([first, rest @ ..], [other, others @ ..]) = (left, right) {
        if !same_request(first, other) {
            return false;
        }
        left = rest;
        right = others;
    }
    left.is_empty() && right.is_empty()
}

fn same_response(left: &Response, right: &Response) -> bool
    ensures { result ≡ same_response left.now right.now }
{
    left.status == right.status
        && same_headers(left.headers.as_slice(), right.headers.as_slice())
        && *left.body.get() == *right.body.get()
}

fn same_options(left: Options, right: Options) -> bool
    ensures { result ≡ same_options left right }
{
    same_truth(left.ignore_search, right.ignore_search)
        && same_truth(left.ignore_method, right.ignore_method)
        && same_truth(left.ignore_vary, right.ignore_vary)
}

fn same_op(left: &Op, right: &Op) -> bool
    ensures { result ≡ same_op left.now right.now }
{
    match (left, right) {
        (
            Op::Delete { request, options },
            Op::Delete {
                request: other,
                options: other_options,
            },
        ) => same_request(request, other) && same_options(*options, *other_options),
        (
            Op::Put { request, response },
            Op::Put {
                request: other,
                response: other_response,
            },
        ) => same_request(request, other) && same_response(response, other_response),
        _ => false,
    }
}

fn same_ops(mut left: &[Op], mut right: &[Op]) -> bool
    ensures { result ≡ same_list same_op left.now right.now }
{
    while let ([first, rest @ ..], [other, others @ ..]) = (left, right) {
        if !same_op(first, other) {
            return false;
        }
        left = rest;
        right = others;
    }
    left.is_empty() && right.is_empty()
}

/// The calls are the same, with all that they hold.
#[tactic(auto, unfolding(crate::specs::Sameness::same_call))]
pub fn same_call(left: &Call, right: &Call) -> bool
    ensures { result ≡ same_call left.now right.now }
{
    match (left, right) {
        (Call::SkipWaiting, Call::SkipWaiting)
        | (Call::Claim, Call::Claim)
        | (Call::Update, Call::Update) => true,
        (Call::CacheOpen { name }, Call::CacheOpen { name: other })
        | (Call::CacheDelete { name }, Call::CacheDelete { name: other }) => name == other,
        (Call::Put(put), Call::Put(other)) => {
            let (put, other) = (put.get(), other.get());
            put.name == other.name
                && same_request(&put.request, &other.request)
                && same_response(&put.response, &other.response)
        }
        (Call::Delete(asked), Call::Delete(other)) => {
            let (asked, other) = (asked.get(), other.get());
            asked.name == other.name
                && same_request(&asked.request, &other.request)
                && same_options(asked.options, other.options)
        }
        (Call::Batch(asked), Call::Batch(other)) => {
            let (asked, other) = (asked.get(), other.get());
            asked.name == other.name
                && same_ops(asked.operations.as_slice(), other.operations.as_slice())
        }
        (Call::AddAll(asked), Call::AddAll(other)) => {
            let (asked, other) = (asked.get(), other.get());
            asked.name == other.name
                && same_requests(asked.requests.as_slice(), other.requests.as_slice())
        }
        _ => false,
    }
}
