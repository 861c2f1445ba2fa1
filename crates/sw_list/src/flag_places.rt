//! The first place that passes, of a part of the flags and of the counts of their blocks.

ghost use Rattle.std.specs.Prelude.{◌≡◌, ◌-◌, ◌%◌, ◌==◌, not, drop, position, slice_get, take};
ghost use Rattle.std.specs.List.{position_from};
ghost use Rattle.std.specs.Option.{option_copied};

// How many flags a block has.
pub(crate) const BLOCK: usize = 256;

// What stands at or behind a place.
#[tactic(auto, using(std::proofs::lemmas::List::drop_min))]
fn behind<T>(items: &[T], from: usize) -> &[T]
    ensures { result.now ≡ drop from items.now }
{
    items.split_at(from.min(items.len())).1
}

// So many of the first.
#[tactic(auto, using(std::proofs::lemmas::List::take_min))]
fn front<T>(items: &[T], most: usize) -> &[T]
    ensures { result.now ≡ take most items.now }
{
    items.split_at(most.min(items.len())).0
}

// The first flag that is set.
fn first_set(flags: &[bool]) -> Option<usize>
    ensures { result ≡ position (λ flag. flag) flags.now }
{
    flags.iter().position(|flag| *flag)
}

// The first count that isn't zero.
fn first_counted(counts: &[u16]) -> Option<usize>
    ensures { result ≡ position (λ count. not (count == 0)) counts.now }
{
    counts.iter().position(|count| *count != 0)
}

// The first place whose flag is set, from a place to the end of its block.
#[tactic(auto, using(crate::proofs::Placing::placed_at, crate::proofs::Placing::placed_none))]
pub(crate) fn in_block(flags: &[bool], from: usize) -> Option<usize>
    ensures { result ≡ position_from (λ flag. flag) from
        (take (256 - from % 256) (drop from flags.now)) }
{
    match first_set(front(behind(flags, from), BLOCK - from % BLOCK)) {
        Some(place) => Some(from + place),
        None => None,
    }
}

// The first block at or behind a block of which a flag is set.
#[tactic(auto, using(crate::proofs::Placing::placed_at, crate::proofs::Placing::placed_none))]
pub(crate) fn counted_from(counts: &[u16], block: usize) -> Option<usize>
    ensures { result ≡ position_from (λ count. not (count == 0)) block (drop block counts.now) }
{
    match first_counted(behind(counts, block)) {
        Some(place) => Some(block + place),
        None => None,
    }
}

// The row of a place.
pub(crate) fn row_at<T>(rows: &[T], place: usize) -> Option<&T>
    ensures { option_copied result ≡ slice_get rows.now place }
{
    rows.get(place)
}
