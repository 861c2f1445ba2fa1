//! The lines of the recording.

ghost use Rattle.std.specs.Prelude.{◌≡◌, ◌+◌, ◌++◌, ℕ, IfOk, string_bytes};
ghost use Rattle.sw_gen.specs.Generated.{fetch_line, fetch_lines, action, of_client, open_line, register_line, await_line, close_line, cache_line, put_line, scope_line, last_lines, client_lines};

use std::alloc::{AllocError, Global};

// How many scripts there are.
const SCRIPTS: u32 = 16;

// The line that answers a fetch of a script.
#[tactic(auto, unfolding(crate::specs::Generated::fetch_line))]
fn fetch_line(alloc: Global, script: u32) -> Result<String, AllocError>
    ensures { IfOk result (λ text. string_bytes text ≡ fetch_line script) }
{
    format!(in alloc;
        "{{\"fetch\":\"https://g.test/s{script}/sw.js\",\"status\":200,\"headers\":[[\"Content-Type\",\"text/javascript\"]],\"text\":\"// {script}\"}}\n"
    )
}

/// The lines of all scripts.
#[tactic(auto, using(crate::proofs::Growing::more_scripts))]
pub fn fetch_lines(alloc: Global) -> Result<String, AllocError>
    ensures { IfOk result (λ text. string_bytes text ≡ fetch_lines 16) }
{
    let mut text = String::new(alloc);
    for script in 0..SCRIPTS {
        let line = fetch_line(alloc, script)?;
        text.push_str(line.as_str())?;
    }
    Ok(text)
}

// The line of a lane's action with this word and these members.
#[tactic(auto, unfolding(crate::specs::Generated::action))]
fn action(alloc: Global, lane: u32, word: &str, members: &str) -> Result<String, AllocError>
    ensures { IfOk result (λ text. string_bytes text ≡ action lane word.now members.now) }
{
    format!(in alloc; "{{\"lane\":{lane},\"do\":\"{word}\"{members}}}\n")
}

// The members of an action that names a client.
#[tactic(auto, unfolding(crate::specs::Generated::of_client))]
fn of_client(alloc: Global, client: u32, members: &str) -> Result<String, AllocError>
    ensures { IfOk result (λ text. string_bytes text ≡ of_client client members.now) }
{
    format!(in alloc; ",\"client\":{client}{members}")
}

// A client opens its page.
#[tactic(auto, unfolding(crate::specs::Generated::open_line))]
fn open_line(alloc: Global, lane: u32, client: u32, script: u32) -> Result<String, AllocError>
    ensures { IfOk result (λ text. string_bytes text ≡ open_line lane client script) }
{
    let url = format!(in alloc; ",\"url\":\"https://g.test/s{script}/p{client}\"")?;
    let members = of_client(alloc, client, url.as_str())?;
    action(alloc, lane, "open", members.as_str())
}

// A client registers its script.
#[tactic(auto, unfolding(crate::specs::Generated::register_line))]
fn register_line(alloc: Global, lane: u32, client: u32) -> Result<String, AllocError>
    ensures { IfOk result (λ text. string_bytes text ≡ register_line lane client) }
{
    let members = of_client(alloc, client, ",\"script\":\"sw.js\"")?;
    action(alloc, lane, "register", members.as_str())
}

// A lane awaits the promise of its action at a position.
#[tactic(auto, unfolding(crate::specs::Generated::await_line))]
fn await_line(alloc: Global, lane: u32, at: u32) -> Result<String, AllocError>
    ensures { IfOk result (λ text. string_bytes text ≡ await_line lane at) }
{
    let members = format!(in alloc; ",\"of\":{at}")?;
    action(alloc, lane, "await", members.as_str())
}

// A client closes.
#[tactic(auto, unfolding(crate::specs::Generated::close_line))]
fn close_line(alloc: Global, lane: u32, client: u32) -> Result<String, AllocError>
    ensures { IfOk result (λ text. string_bytes text ≡ close_line lane client) }
{
    let members = of_client(alloc, client, "")?;
    action(alloc, lane, "close", members.as_str())
}

// The cache is opened.
#[tactic(auto, unfolding(crate::specs::Generated::cache_line))]
fn cache_line(alloc: Global, lane: u32) -> Result<String, AllocError>
    ensures { IfOk result (λ text. string_bytes text ≡ cache_line lane) }
{
    action(
        alloc,
        lane,
        "cacheOpen",
        ",\"at\":\"https://g.test/\",\"name\":\"c\"",
    )
}

// A client's page is put into the cache.
#[tactic(auto, unfolding(crate::specs::Generated::put_line))]
fn put_line(alloc: Global, lane: u32, client: u32) -> Result<String, AllocError>
    ensures { IfOk result (λ text. string_bytes text ≡ put_line lane client) }
{
    let members = format!(in alloc;
        ",\"at\":\"https://g.test/\",\"name\":\"c\",\"request\":\"https://g.test/p{client}\",\"response\":{{\"status\":200}}"
    )?;
    action(alloc, lane, "put", members.as_str())
}

// An action on the scope of the client's page.
#[tactic(auto, unfolding(crate::specs::Generated::scope_line))]
fn scope_line(alloc: Global, lane: u32, word: &str, client: u32) -> Result<String, AllocError>
    ensures { IfOk result (λ text. string_bytes text ≡ scope_line lane word.now client) }
{
    let members = of_client(alloc, client, ",\"scope\":\"./\"")?;
    action(alloc, lane, word, members.as_str())
}

// The cache is opened and the client's page put into it.
fn cached(alloc: Global, lane: u32, client: u32) -> Result<String, AllocError>
    ensures { IfOk result (λ text. string_bytes text ≡ cache_line lane ++ put_line lane client) }
{
    let mut text = cache_line(alloc, lane)?;
    let put = put_line(alloc, lane, client)?;
    text.push_str(put.as_str())?;
    Ok(text)
}

// The last lines of a client, by their kind.
#[tactic(auto, unfolding(crate::specs::Generated::last_lines))]
fn last_lines(alloc: Global, kind: u32, lane: u32, client: u32) -> Result<String, AllocError>
    ensures { IfOk result (λ text. string_bytes text ≡ last_lines kind lane client) }
{
    match kind {
        0 => close_line(alloc, lane, client),
        1 => cached(alloc, lane, client),
        2 => scope_line(alloc, lane, "softUpdate", client),
        _ => scope_line(alloc, lane, "unregister", client),
    }
}

/// The lines of a client whose registering stands at position `at` of its lane.
#[tactic(auto, unfolding(crate::specs::Generated::client_lines))]
pub fn client_lines(
    alloc: Global,
    lane: u32,
    at: u32,
    client: u32,
    script: u32,
    kind: u32,
) -> Result<String, AllocError>
    ensures { (before : ℕ) → at ≡ before + 1
        → IfOk result (λ text. string_bytes text ≡ client_lines lane before client script kind) }
{
    let mut text = open_line(alloc, lane, client, script)?;
    let register = register_line(alloc, lane, client)?;
    let await_line = await_line(alloc, lane, at)?;
    let last = last_lines(alloc, kind, lane, client)?;
    text.push_str(register.as_str())?;
    text.push_str(await_line.as_str())?;
    text.push_str(last.as_str())?;
    Ok(text)
}
