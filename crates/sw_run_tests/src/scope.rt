//! The map of scopes, and a plain scan of them.
ghost use Rattle.std.specs.Prelude.{◌≡◌, ◌<◌};

use std::alloc::Global;
use std::marker::Brand;
use std::process::Abort;
use std::sync::ledger::{Blank, Ledger};
use sw_data::Text;
use sw_scope::{ScopeMap, Steps, scan};

const KEY: &str = "https://a.test";

const PARTITIONED: &str = "https://a.test https://b.test";

// The longest scope, by a counter over a ledger of its own.
fn counted<L: Ledger>(map: &ScopeMap, key: &Text, address: &[u8], blank: Blank) -> Option<u32>
    requires name { blank.name ≡ L.name }
    requires parts { blank.parts ≡ L.parts }
    requires one { 0 < L.parts }
{
    let mut steps = Steps::<L>::new(blank);
    map.longest(key, address, &mut steps)
}

fn longest(map: &ScopeMap, key: &Text, address: &[u8]) -> Option<u32> {
    counted::<Brand>(map, key, address, Blank::new(1))
}

fn text(rt: &impl Abort, alloc: Global, text: &str) -> Text {
    Text::of(alloc, text).expect(rt, "memory")
}

const SCOPES: [(&str, &str, u32); 3] = [
    (KEY, "https://a.test/app", 1),
    (KEY, "https://a.test/", 0),
    (PARTITIONED, "https://a.test/app", 4),
];

// The scopes as rows.
fn rows(rt: &impl Abort, alloc: Global) -> Vec<(Text, Text, u32)> {
    let mut rows = Vec::new(alloc);
    for (key, scope, id) in SCOPES {
        rows.push((text(rt, alloc, key), text(rt, alloc, scope), id))
            .expect(rt, "memory");
    }
    rows
}

fn set(rt: &impl Abort, alloc: Global, map: &mut ScopeMap, key: &str, scope: &Text, id: u32) {
    map.set(alloc, &text(rt, alloc, key), scope, id)
        .expect(rt, "memory");
}

// The scopes as a map.
fn mapped(rt: &impl Abort, alloc: Global) -> ScopeMap {
    let mut map = ScopeMap::new(alloc);
    for (key, scope, id) in SCOPES {
        set(rt, alloc, &mut map, key, &text(rt, alloc, scope), id);
    }
    map
}

#[test]
fn finds_what_a_scan_finds(rt: HostRuntime) {
    let alloc = rt.alloc();
    let (rows, map) = (rows(&rt, alloc), mapped(&rt, alloc));
    for (key, address, expected) in [
        (KEY, "https://a.test/apple", Some(1)),
        (KEY, "https://a.test/ap", Some(0)),
        (KEY, "https://a.test", None),
        (PARTITIONED, "https://a.test/app/x", Some(4)),
    ] {
        let key = text(&rt, alloc, key);
        assert_eq!(rt; longest(&map, &key, address.as_bytes()), expected);
        assert_eq!(rt; scan(rows.as_slice(), &key, address.as_bytes()), expected);
    }
}

#[test]
fn another_scope_is_not_mapped(rt: HostRuntime) {
    let alloc = rt.alloc();
    let key = text(&rt, alloc, KEY);
    let (root, app) = (
        text(&rt, alloc, "https://a.test/"),
        text(&rt, alloc, "https://a.test/app"),
    );
    let mut map = ScopeMap::new(alloc);
    set(&rt, alloc, &mut map, KEY, &app, 7);
    assert_eq!(rt; map.get(&key, &root), None);
    assert_eq!(rt; map.get(&key, &app), Some(7));
}

// A map of a thousand scopes of the key.
fn thousand(rt: &impl Abort, alloc: Global) -> ScopeMap {
    let mut map = ScopeMap::new(alloc);
    for id in 1000..2000u32 {
        let scope = format!(in alloc; "https://a.test/{id}/").expect(rt, "memory");
        set(rt, alloc, &mut map, KEY, &Text::from_string(scope), id);
    }
    map
}

#[test]
fn holds_many_scopes(rt: HostRuntime) {
    let (key, map) = (text(&rt, rt.alloc(), KEY), thousand(&rt, rt.alloc()));
    assert_eq!(rt; longest(&map, &key, b"https://a.test/1999/x"), Some(1999));
    assert_eq!(rt; longest(&map, &key, b"https://a.test/2000/x"), None);
}

// A scope of 4,096 bytes.
fn long(rt: &impl Abort, alloc: Global) -> Text {
    let mut long = String::from_str(alloc, "https://a.test/").expect(rt, "memory");
    for _ in long.len()..4096 {
        long.push('x').expect(rt, "memory");
    }
    Text::from_string(long)
}

#[test]
fn holds_long_scopes(rt: HostRuntime) {
    let alloc = rt.alloc();
    let (key, long) = (text(&rt, alloc, KEY), long(&rt, alloc));
    let mut map = ScopeMap::new(alloc);
    set(&rt, alloc, &mut map, KEY, &long, 1);
    assert_eq!(rt; longest(&map, &key, long.as_bytes()), Some(1));
    assert_eq!(rt; map.get(&key, &long), Some(1));
}
