//! The slots without a value.

ghost use Rattle.std.specs.Prelude.{◌≡◌, ◌<◌, ◌≤◌, drop, length, map, vec_capacity, vec_len};
ghost use Rattle.std.specs.List.{All};
ghost use Rattle.std.specs.List.Sorted.{IsNonDecreasingBy};
ghost use Rattle.sw_list.specs.Holes.{lowered, many_before, many_to, with_hole};

// With so many holes the slots are squeezed.
pub(crate) const HOLES: usize = 512;

// A hole: its place among the slots, and how many values stand before it.
#[derive(Clone, Copy)]
pub(crate) struct Hole {
    pub(crate) slot: usize,
    pub(crate) before: usize,
}

// How many holes stand before the value at a place.
pub(crate) fn holes_before(holes: &[Hole], place: usize) -> usize
    requires { IsNonDecreasingBy (λ hole. hole.before) holes.now }
    ensures { result ≡ many_before place holes.now }
{
    holes.partition_point(|hole| hole.before <= place)
}

// How many holes stand before a slot.
pub(crate) fn holes_to(holes: &[Hole], slot: usize) -> usize
    requires { IsNonDecreasingBy (λ hole. hole.slot) holes.now }
    ensures { result ≡ many_to slot holes.now }
{
    holes.partition_point(|hole| hole.slot < slot)
}

// Puts a hole where a value was; behind it stands one value less before each hole.
pub(crate) fn put_hole(holes: &mut Vec<Hole>, place: usize, hole: Hole)
    requires within { place ≤ length holes.old.items }
    requires room { vec_len holes.old < vec_capacity holes.old }
    requires values { All (λ hole. 0 < hole.before) (drop place holes.old.items) }
    ensures items { holes.new.items ≡ with_hole place hole holes.old.items }
    ensures capacity { vec_capacity holes.new ≡ vec_capacity holes.old }
{
    lower(holes.split_at_mut(place).1);
    let _ = holes.insert(place, hole);
}

// One value less stands before each of these holes.
fn lower(holes: &mut [Hole])
    requires { All (λ hole. 0 < hole.before) holes.old }
    ensures { holes.new ≡ map lowered holes.old }
{
    for hole in holes.iter_mut() {
        hole.before -= 1;
    }
}
