//! Requests, responses and the operations of a batch, as plain data.

ghost use Rattle.std.specs.Prelude.{◌≡◌, IfOk};

use crate::base::bytes::Bytes;
use crate::base::items::Items;
use crate::base::no_memory::NoMemory;
use crate::base::shared::Shared;
use crate::base::text::Text;
use std::alloc::Global;

/// One line of a list of headers.
#[derive(Debug, Drop)]
pub struct Header {
    pub name: Text,
    pub value: Text,
}

/// A request: its method, its serialized address and its headers.
#[derive(Debug, Drop)]
pub struct Request {
    pub method: Text,
    pub url: Text,
    pub headers: Items<Header>,
}

/// A response whose body has ended.
#[derive(Debug, Drop)]
pub struct Response {
    pub status: u16,
    pub headers: Items<Header>,
    pub body: Shared<Bytes>,
}

/// How a query matches (Service Workers, Cache, "CacheQueryOptions").
#[derive(Debug, Clone, Copy, PartialEq, Eq)]
pub struct Options {
    pub ignore_search: bool,
    pub ignore_method: bool,
    pub ignore_vary: bool,
}

/// One operation of a batch (Service Workers, Cache, "Batch Cache Operations").
#[derive(Debug, Drop)]
pub enum Op {
    Delete {
        request: Request,
        options: Options,
    },
    Put {
        request: Request,
        response: Response,
    },
}

impl Header {
    /// A line of its own that equals this one.
    pub fn copy(&self, alloc: Global) -> Result<Header, NoMemory>
        ensures { IfOk result (λ line. line ≡ self.now) }
    {
        Ok(Header {
            name: self.name.copy(alloc)?,
            value: self.value.copy(alloc)?,
        })
    }
}

/// A list of headers of its own that equals this one.
pub fn copy_headers(alloc: Global, headers: &Items<Header>) -> Result<Items<Header>, NoMemory>
    ensures { IfOk result (λ lines. lines ≡ headers.now) }
{
    let mut lines = Items::new(alloc);
    for line in headers.as_slice() {
        lines.push(line.copy(alloc)?)?;
    }
    Ok(lines)
}

impl Request {
    /// A request of its own that equals this one.
    pub fn copy(&self, alloc: Global) -> Result<Request, NoMemory>
        ensures { IfOk result (λ request. request ≡ self.now) }
    {
        let url = self.url.copy(alloc)?;
        self.with_url(alloc, url)
    }

    /// A request that is this one but for its address.
    pub fn with_url(&self, alloc: Global, url: Text) -> Result<Request, NoMemory>
        ensures { IfOk result (λ request. request ≡ record self.now { url = url }) }
    {
        Ok(Request {
            method: self.method.copy(alloc)?,
            url,
            headers: copy_headers(alloc, &self.headers)?,
        })
    }
}

impl Response {
    /// A response that equals this one; its body is this one's, not copied.
    pub fn copy(&self, alloc: Global) -> Result<Response, NoMemory>
        ensures { IfOk result (λ response. response ≡ self.now) }
    {
        Ok(Response {
            status: self.status,
            headers: copy_headers(alloc, &self.headers)?,
            body: self.body.share()?,
        })
    }
}
