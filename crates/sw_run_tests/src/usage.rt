//! The usage and the key that goes first, which a run within a limit keeps from event to event, beside the scans whose place
//! they take.
use crate::hosts::{AMPLE, after, let_go};
use std::alloc::Global;
use std::process::Abort;
use sw_bucket::{Uses, usage};
use sw_data::{Entry, Event, NoMemory, Text};
use sw_store::Store;

// Each is one event, and each that isn't of a client adds usage.
const LINES: [&str; 12] = [
    "{\"lane\":0,\"do\":\"cacheOpen\",\"at\":\"https://b.test/\",\"name\":\"v\"}\n",
    "{\"lane\":0,\"do\":\"cacheOpen\",\"at\":\"https://a.test/\",\"name\":\"v\"}\n",
    "{\"lane\":0,\"do\":\"cacheOpen\",\"at\":\"https://c.test/\",\"name\":\"v\"}\n",
    "{\"lane\":0,\"do\":\"open\",\"client\":1,\"url\":\"https://b.test/\"}\n",
    "{\"lane\":0,\"do\":\"cacheOpen\",\"at\":\"https://c.test/\",\"name\":\"w\"}\n",
    "{\"lane\":0,\"do\":\"open\",\"client\":2,\"url\":\"https://a.test/\"}\n",
    "{\"lane\":0,\"do\":\"cacheOpen\",\"at\":\"https://c.test/\",\"name\":\"x\"}\n",
    "{\"lane\":0,\"do\":\"close\",\"client\":1}\n",
    "{\"lane\":0,\"do\":\"cacheOpen\",\"at\":\"https://c.test/\",\"name\":\"y\"}\n",
    "{\"lane\":0,\"do\":\"close\",\"client\":2}\n",
    "{\"lane\":0,\"do\":\"cacheOpen\",\"at\":\"https://c.test/\",\"name\":\"z\"}\n",
    "{\"lane\":0,\"do\":\"put\",\"at\":\"https://b.test/\",\"name\":\"v\",\"request\":\"https://b.test/x\",\"response\":{\"status\":200,\"text\":\"a\"}}\n",
];

// The first lines.
fn lines(alloc: Global, many: usize) -> Result<String, NoMemory> {
    let mut text = String::new(alloc);
    for line in LINES.iter().take(many) {
        text.push_str(line)?;
    }
    Ok(text)
}

// What happens by the first lines within a limit, the usage that it leaves, and the host after it.
fn within(
    rt: &impl Abort,
    alloc: Global,
    many: usize,
    limit: u64,
) -> Option<(Vec<Entry>, u64, Store)> {
    match lines(alloc, many) {
        Ok(text) => after(rt, alloc, text.as_str(), limit),
        Err(NoMemory) => None,
    }
}

// What is at a place of what happens by the first lines within a limit is the host's forget of the key that goes first.
fn goes_first(
    rt: &impl Abort,
    alloc: Global,
    many: usize,
    limit: u64,
    place: usize,
    first: Option<&Text>,
) -> bool {
    match within(rt, alloc, many, limit) {
        Some((history, _, store)) => {
            let_go(store);
            forgets(history.get(place), first)
        }
        None => false,
    }
}

// The entries from a place on are noted, on the host after the last one.
fn note_from(
    alloc: Global,
    uses: &mut Uses,
    store: &Store,
    history: &[Entry],
    from: usize,
) -> bool {
    for entry in history.iter().skip(from) {
        if uses.note(alloc, store.core(), entry).is_err() {
            return false;
        }
    }
    true
}

// An entry is the host's forget of a key; without an entry there is no key.
fn forgets(entry: Option<&Entry>, key: Option<&Text>) -> bool {
    match (entry, key) {
        (Some(entry), Some(key)) => match &entry.event {
            Event::Forget { place, .. } => {
                place.at.as_str().strip_suffix("/") == Some(key.as_str())
            }
            _ => false,
        },
        (None, None) => true,
        _ => false,
    }
}

#[test]
fn what_a_bound_keeps_is_what_the_scans_find(rt: HostRuntime) {
    let alloc = rt.alloc();
    let mut uses = Uses::new(alloc);
    let mut noted = 0;
    let mut before = 0;
    for many in 0..=LINES.len() {
        let (history, used, store) = within(&rt, alloc, many, AMPLE).expect(&rt, "a run");
        assert!(rt; usage(alloc, store.core()) == Ok(used));
        assert!(rt; note_from(alloc, &mut uses, &store, &history, noted));
        noted = history.len();
        let first = uses.victim(alloc, store.core()).expect(&rt, "memory");
        let_go(store);
        if used > before {
            assert!(rt;
                goes_first(&rt, alloc, many, used - 1, noted, first.as_ref()),
                "{many}"
            );
        }
        before = used;
    }
}
