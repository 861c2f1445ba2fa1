//! Laws of usage. A call does nothing; its clause is the law.

ghost use Rattle.sw_bucket.specs.Laws.{HaveUsage};

/// Each key with a kept registration or a cache has usage.
#[tactic(auto, using(crate::proofs::Holding::have_usage))]
pub fn kept_keys_have_usage()
    ensures { HaveUsage }
{}
