//! What a claim would activate.
use crate::hosts::{AMPLE, after, let_go};
use std::alloc::Global;
use sw_store::Store;

// The first worker of a registration is active without a page of its own; the second one waits, as a page of the first is
// open, which lies below another registration's scope too.
const LINES: &str =
    "{\"fetch\":\"https://a.test/one.js\",\"status\":200,\"headers\":[[\"Content-Type\",\"text/javascript\"]],\"text\":\"// 1\"}
{\"fetch\":\"https://a.test/one.js\",\"status\":200,\"headers\":[[\"Content-Type\",\"text/javascript\"]],\"text\":\"// 2\"}
{\"fetch\":\"https://a.test/two.js\",\"status\":200,\"headers\":[[\"Content-Type\",\"text/javascript\"]],\"text\":\"// 3\"}
{\"lane\":0,\"do\":\"open\",\"client\":0,\"url\":\"https://a.test/other\"}
{\"lane\":0,\"do\":\"open\",\"client\":1,\"url\":\"https://a.test/x/first\"}
{\"lane\":0,\"do\":\"register\",\"client\":0,\"script\":\"/one.js\",\"scope\":\"/x\"}
{\"lane\":0,\"do\":\"ready\",\"client\":1}
{\"lane\":0,\"do\":\"open\",\"client\":2,\"url\":\"https://a.test/x/page\"}
{\"lane\":0,\"do\":\"update\",\"client\":0,\"scope\":\"/x\"}
{\"lane\":0,\"do\":\"await\",\"of\":5}
{\"lane\":0,\"do\":\"register\",\"client\":0,\"script\":\"/two.js\",\"scope\":\"/x/\"}
{\"lane\":0,\"do\":\"await\",\"of\":7}
";

// A claim by this worker would activate these registrations.
fn activates(alloc: Global, store: &Store, worker: u32, registrations: &[u32]) -> bool {
    match store.core().claimed(alloc, worker) {
        Ok(claimed) => claimed.as_slice() == registrations,
        Err(_) => false,
    }
}

#[test]
fn a_claim_takes_the_last_page_of_a_worker_before_one_that_waits(rt: HostRuntime) {
    let alloc = rt.alloc();
    let (history, _, store) = after(&rt, alloc, LINES, AMPLE).expect(&rt, "a run");
    assert!(rt; activates(alloc, &store, 0, &[]));
    assert!(rt; activates(alloc, &store, 1, &[]));
    assert!(rt; activates(alloc, &store, 2, &[0]));
    assert!(rt; activates(alloc, &store, 3, &[]));
    drop(history);
    let_go(store);
}
