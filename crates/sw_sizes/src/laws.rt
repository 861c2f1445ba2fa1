//! Laws of sizes and usage. A call does nothing; its clause is the law.

ghost use Rattle.sw_sizes.specs.Laws.{AreSpelledSo, IsSumOverKeys};

/// A change is spelled in as many bytes as its size says, and the usage is the sum of the bytes of registrations and
/// caches.
#[tactic(auto, using(crate::proofs::Totals::are_spelled_so))]
pub fn sizes_are_lengths()
    ensures { AreSpelledSo }
{}

/// The usage is the sum of the usages of the keys.
#[tactic(auto, using(crate::proofs::Totals::is_sum_over_keys))]
pub fn usage_is_a_sum()
    ensures { IsSumOverKeys }
{}
