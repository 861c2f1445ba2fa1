//! The index of a cache beside a plain scan of its pairs.
use std::alloc::Global;
use std::process::Abort;
use sw_caches::{Caches, Entry, apply_ops};
use sw_data::{Bytes, Header, Items, NoMemory, Op, Options, Request, Response, Shared, Text};
use sw_match::query;

const PLAIN: Options = Options {
    ignore_search: false,
    ignore_method: false,
    ignore_vary: false,
};

const ANY: Options = Options {
    ignore_search: true,
    ignore_method: true,
    ignore_vary: true,
};

fn lines(alloc: Global, name: &str, value: &str) -> Result<Items<Header>, NoMemory> {
    let mut headers = Items::new(alloc);
    if !value.is_empty() {
        headers.push(Header {
            name: Text::of(alloc, name)?,
            value: Text::of(alloc, value)?,
        })?;
    }
    Ok(headers)
}

fn asked(alloc: Global, method: &str, url: &str, accept: &str) -> Result<Request, NoMemory> {
    Ok(Request {
        method: Text::of(alloc, method)?,
        url: Text::of(alloc, url)?,
        headers: lines(alloc, "accept", accept)?,
    })
}

fn get(alloc: Global, url: &str) -> Result<Request, NoMemory> {
    asked(alloc, "GET", url, "")
}

fn put(alloc: Global, request: Request, status: u16, vary: &str) -> Result<Op, NoMemory> {
    Ok(Op::Put {
        request,
        response: Response {
            status,
            headers: lines(alloc, "vary", vary)?,
            body: Shared::new(alloc, Bytes::of(alloc, b"A")?)?,
        },
    })
}

fn delete(request: Request, options: Options) -> Op {
    Op::Delete { request, options }
}

// A cache `v` of the key `k`.
fn one_cache(alloc: Global, key: &Text, name: &Text) -> Result<Caches, NoMemory> {
    let mut caches = Caches::new(alloc);
    caches.make(alloc, key, name)?;
    Ok(caches)
}

// Operations that add, replace and remove pairs of four addresses.
fn step(alloc: Global, turn: u32) -> Result<Vec<Op>, NoMemory> {
    let url = match turn % 5 {
        0 => "https://a.test/x",
        1 => "https://a.test/x?q",
        2 => "https://a.test/x?r#f",
        3 => "https://a.test/y",
        _ => "https://a.test/x#g",
    };
    let accept = if turn % 3 == 0 { "a" } else { "" };
    let item = asked(alloc, "GET", url, accept)?;
    let mut ops = Vec::new(alloc);
    if turn % 7 == 6 {
        ops.push(delete(item, ANY))?;
    } else {
        ops.push(put(alloc, item, 200, if turn % 2 == 0 { "accept" } else { "" })?)?;
    }
    Ok(ops)
}

// A cache has these pairs, in order.
fn has_pairs(entries: Option<&[Entry]>, list: &[(Request, Response)]) -> bool {
    let Some(entries) = entries else {
        return false;
    };
    entries.len() == list.len()
        && entries.iter().zip(list.iter()).all(|(entry, pair)| {
            let (request, response) = entry.pair();
            request.url == pair.0.url && response.status == pair.1.status
        })
}

// Carries out a step on a list by a scan, and on a cache by its index.
fn both(
    rt: &impl Abort,
    alloc: Global,
    list: &mut Vec<(Request, Response)>,
    caches: &mut Caches,
    names: &(Text, Text),
    turn: u32,
) -> bool {
    let scanned = step(alloc, turn).expect(rt, "memory");
    let found = step(alloc, turn).expect(rt, "memory");
    apply_ops(alloc, list, scanned.as_slice()).is_ok()
        && caches.batch(alloc, &names.0, &names.1, found).is_ok()
        && caches.len_of(&names.0, &names.1) == Some(list.len())
        && has_pairs(caches.pairs(&names.0, &names.1), list.as_slice())
}

// Whether a query finds by the index what it finds by a scan.
fn is_same(
    rt: &impl Abort,
    alloc: Global,
    list: &[(Request, Response)],
    caches: &Caches,
    names: &(Text, Text),
    url: &str,
    options: Options,
) -> bool {
    let item = get(alloc, url).expect(rt, "memory");
    let scanned = query(alloc, list, &item, options).expect(rt, "memory");
    caches.places(alloc, &names.0, &names.1, &item, options) == Ok(scanned)
}

#[test]
fn the_index_finds_what_a_scan_finds(rt: HostRuntime) {
    let alloc = rt.alloc();
    let names = (
        Text::of(alloc, "https://a.test").expect(&rt, "memory"),
        Text::of(alloc, "v").expect(&rt, "memory"),
    );
    let mut caches = one_cache(alloc, &names.0, &names.1).expect(&rt, "memory");
    let mut list = Vec::new(alloc);
    for turn in 0..40 {
        assert!(rt; both(&rt, alloc, &mut list, &mut caches, &names, turn));
        for url in [
            "https://a.test/x",
            "https://a.test/x?q",
            "https://a.test/y#f",
        ] {
            for options in [PLAIN, ANY] {
                let list = list.as_slice();
                assert!(rt; is_same(&rt, alloc, list, &caches, &names, url, options));
            }
        }
    }
}
