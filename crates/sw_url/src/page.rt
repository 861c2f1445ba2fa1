//! The storage key of a page, or why it has none.

ghost use Rattle.std.specs.Prelude.{◌≡◌, IfOk, option_copied};
ghost use Rattle.sw_url.specs.Pages.{page_key, parsed_page_key};

use crate::fault::UrlFault;
use crate::origin::{origin, partitioned};
use crate::parsing::parsed;
use crate::trust::is_trusted;
use std::alloc::Global;
use sw_data::{NoMemory, Text};
use thiserror::Error;
use url::Url;

/// Why a page has no storage key.
#[derive(Debug, Clone, Copy, PartialEq, Eq, Error)]
pub enum PageFault {
    /// The address doesn't parse.
    #[error("the address doesn't parse")]
    Unparsed,
    /// The scheme is neither http nor https.
    #[error("the scheme is neither http nor https")]
    Scheme,
    /// The address isn't trustworthy.
    #[error("the address isn't trustworthy")]
    Untrusted,
}

/// The storage key of the page at an address in a partition (Storage, "obtain a storage key"),
/// where the address is trustworthy (Secure Contexts, 3.2). The address is parsed once.
///
/// Refusals are tested in this order: `Unparsed`, `Scheme`, `Untrusted`.
#[tactic(auto, unfolding(sw_data::specs::Keys::key_of, sw_data::specs::Addresses::origin_of, sw_data::specs::Addresses::is_trustworthy))]
pub fn page_key(
    alloc: Global,
    address: &Text,
    partition: Option<&Text>,
) -> Result<Result<Text, PageFault>, NoMemory>
    ensures { IfOk result (λ key. key ≡ page_key address.now (option_copied partition.entry)) }
{
    match parsed(alloc, address.as_str()) {
        Ok(url) => key_of_page(alloc, &url, partition),
        Err(UrlFault::NoMemory) => Err(NoMemory),
        Err(_) => Ok(Err(PageFault::Unparsed)),
    }
}

// The same, of a parsed address.
fn key_of_page(
    alloc: Global,
    url: &Url,
    partition: Option<&Text>,
) -> Result<Result<Text, PageFault>, NoMemory>
    ensures { IfOk result (λ key. key
        ≡ parsed_page_key url.now (option_copied partition.entry)) }
{
    let Some(origin) = origin(alloc, url)? else {
        return Ok(Err(PageFault::Scheme));
    };
    if !is_trusted(url) {
        return Ok(Err(PageFault::Untrusted));
    }
    Ok(Ok(partitioned(alloc, origin, partition)?))
}
