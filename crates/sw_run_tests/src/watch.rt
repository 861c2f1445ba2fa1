//! Look-ups are answered while a fetch is held.
use crate::devices::formatted;
use crate::runs::ran;
use std::sync::atomic::{AtomicBool, Ordering};
use std::thread::yield_now;
use sw_data::Text;
use sw_net::Gate;

// A page registers one script twice, and two look-ups are answered beside that.
const JOINED: &str =
    "{\"fetch\":\"https://a.test/sw.js\",\"status\":200,\"headers\":[[\"Content-Type\",\"text/javascript\"]],\"text\":\"// v1\"}
{\"lane\":0,\"do\":\"open\",\"client\":1,\"url\":\"https://a.test/\"}
{\"lane\":0,\"do\":\"register\",\"client\":1,\"script\":\"/sw.js\"}
{\"lane\":0,\"do\":\"register\",\"client\":1,\"script\":\"/sw.js\"}
{\"lane\":0,\"do\":\"await\",\"of\":1}
{\"lane\":0,\"do\":\"await\",\"of\":2}
{\"look\":\"https://a.test/l0\"}
{\"look\":\"https://a.test/l1\"}
";

// A gate that holds the fetch until the first look-up comes, and the second one until the fetch comes, but not for ever.
#[derive(Drop)]
struct Doors {
    first: AtomicBool,
    fetched: AtomicBool,
    missed: AtomicBool,
}

impl Doors {
    fn wait(&self, flag: &AtomicBool) {
        for _ in 0..10_000_000u32 {
            if flag.load(Ordering::SeqCst) {
                return;
            }
            yield_now();
        }
        self.missed.store(true, Ordering::SeqCst);
    }
}

impl Gate for Doors {
    fn pass(&self, address: &Text, ordinal: u32) {
        if address.as_str() == "https://a.test/l0" && ordinal == 0 {
            self.first.store(true, Ordering::SeqCst);
        }
        if address.as_str() == "https://a.test/l1" && ordinal == 1 {
            self.wait(&self.fetched);
        }
        if address.as_str() == "https://a.test/sw.js" {
            self.wait(&self.first);
            self.fetched.store(true, Ordering::SeqCst);
        }
    }
}

// How many entries a line of a look-up names, that found this.
fn entries_of(line: &str, found: &str) -> Option<usize> {
    line.strip_prefix(found)?.parse::<usize>().ok()
}

#[test]
fn looks_are_answered_while_a_fetch_is_held(rt: HostRuntime) {
    let doors = Doors {
        first: AtomicBool::new(false),
        fetched: AtomicBool::new(false),
        missed: AtomicBool::new(false),
    };
    let disk = formatted(&rt, rt.alloc(), Vec::new(rt.alloc()));
    let (ended, sink, _) = ran(&rt, rt.alloc(), "watch 2", JOINED, disk, &doors);
    assert_eq!(rt; ended.code(), 0);
    assert!(rt; !doors.missed.load(Ordering::SeqCst), "each came");
    let text = str::from_utf8(sink.bytes()).ok().expect(&rt, "a text");
    let entries = text.lines().count().saturating_sub(3);
    let line = text.lines().last().expect(&rt, "a line");
    let at = entries_of(line, "look 1 -> r0 at ").expect(&rt, "the registration");
    assert!(rt; at >= 5 && at <= entries, "{at} of {entries}");
}
