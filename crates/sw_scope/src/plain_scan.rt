//! The longest scope by a plain scan.

ghost use Rattle.std.specs.Prelude.{◌≡◌, Option, map, option_map};
ghost use Rattle.sw_rules.specs.Matching.{Scope, longer, longest};
ghost use Rattle.sw_scope.specs.Scopes.{as_scope, sized};

use sw_data::Text;

// The longer of two scopes, each with its registration behind its length, the first of two that are as long.
fn longer_one(best: Option<(usize, u32)>, next: (usize, u32)) -> Option<(usize, u32)>
    ensures { (kept : Option Scope) (scope : Scope) → best ≡ option_map sized kept
        → next ≡ sized scope → result ≡ option_map sized (longer kept scope) }
{
    match best {
        Some(best) if best.0 >= next.0 => Some(best),
        _ => Some(next),
    }
}

/// The registration of the longest scope of this key that the address starts with, among these rows of a key, a scope and a
/// registration; of two that are as long the first. It takes no memory.
pub fn scan(scopes: &[(Text, Text, u32)], key: &Text, address: &[u8]) -> Option<u32>
    ensures { result ≡ option_map (λ scope. scope.number)
        (longest (map as_scope scopes.now) key.now address.now) }
{
    let mut best = None;
    for (own, scope, number) in scopes {
        let scope = scope.as_bytes();
        if own == key && address.starts_with(scope) {
            best = longer_one(best, (scope.len(), *number));
        }
    }
    Some(best?.1)
}
