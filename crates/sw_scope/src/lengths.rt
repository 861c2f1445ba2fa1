//! The distinct lengths of the scopes of one key.

ghost use Rattle.std.specs.Prelude.{◌≡◌, ◌+◌, ◌-◌, ◌<◌, ◌≤◌, vec_len, vec_capacity};
ghost use Rattle.sw_scope.specs.Counted.{one_less, one_more, place_of, scopes_of, stands};

// A length, and how many scopes have it.
#[derive(Clone, Copy)]
pub(crate) struct Counted {
    pub(crate) length: usize,
    pub(crate) scopes: usize,
}

// Where a length stands among these, or would stand, longest first, and whether it stands there.
fn place(lengths: &[Counted], own: usize) -> (usize, bool)
    ensures place { result.0 ≡ place_of lengths.now own }
    ensures stands { result.1 ≡ stands lengths.now own }
{
    for at in 0..lengths.len() {
        if lengths[at].length <= own {
            return (at, lengths[at].length == own);
        }
    }
    (lengths.len(), false)
}

// Counts one more scope of a length; it takes no memory.
#[tactic(auto, using(crate::proofs::Counting::at_place))]
pub(crate) fn add(lengths: &mut Vec<Counted>, length: usize)
    requires room { vec_len lengths.old < vec_capacity lengths.old }
    requires fits { scopes_of lengths.old.items length < usize.MAX }
    ensures counted { lengths.new.items ≡ one_more lengths.old.items length }
    ensures room { vec_capacity lengths.old - vec_len lengths.old
        ≤ (vec_capacity lengths.new - vec_len lengths.new) + 1 }
{
    let (at, stands) = place(lengths.as_slice(), length);
    if stands {
        lengths[at].scopes += 1;
    } else {
        let _ = lengths.insert(at, Counted { length, scopes: 1 });
    }
}

// Counts one scope of a length less; it takes no memory.
#[tactic(auto, using(crate::proofs::Counting::at_place))]
pub(crate) fn subtract(lengths: &mut Vec<Counted>, length: usize)
    ensures counted { lengths.new.items ≡ one_less lengths.old.items length }
    ensures room { vec_capacity lengths.old - vec_len lengths.old
        ≤ vec_capacity lengths.new - vec_len lengths.new }
{
    let (at, stands) = place(lengths.as_slice(), length);
    if !stands {
        return;
    }
    if lengths[at].scopes > 1 {
        lengths[at].scopes -= 1;
    } else {
        let _ = lengths.remove(at);
    }
}
