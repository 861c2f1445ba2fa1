//! What the host forgets, and when.

ghost use Rattle.std.specs.Prelude.{◌≡◌, ◌++◌, ◌∷◌, [], List, Option, IfOk, IfSome, OnOk, Some};
ghost use Rattle.sw_bucket.specs.Bounded.{IsForget};
ghost use Rattle.sw_codec.specs.Spelling.{spelled_all};
ghost use Rattle.sw_data.specs.declared.events.Event as events;
ghost use Rattle.sw_data.specs.declared.histories.Entry as entries;
ghost use Rattle.sw_data.specs.declared.storage.Kept.{Kept};
ghost use Rattle.sw_rules.specs.History.{Legal, after};
ghost use Rattle.sw_rules.specs.State.{State};
ghost use Rattle.sw_rules.specs.Step.{changes_of};
ghost use Rattle.sw_state.specs.Hosted.{state_of};

use std::alloc::Global;
use sw_core::Core;
use sw_data::{Entry, Event, NoMemory};

/// What the host forgets, and when. It notes the entries of a history, one after another.
pub trait Bound {
    // The forget of the host that is due after these entries from a base, in this state, if any.
    ghost forgets: { Self → Kept → List entries.Entry → State → Option events.Event };

    // These entries from a base were noted.
    ghost notes: { Self → Kept → List entries.Entry → Type 0 };

    /// The forget of the host that is due, if any.
    fn due(&self, alloc: Global, core: &Core) -> Result<Option<Event>, NoMemory>
        ensures due { (base : Kept) (history : List entries.Entry) → notes self.now base history
            → Legal base history → after base history ≡ state_of core.now
            → IfOk result (λ event. event ≡ forgets self.now base history (state_of core.now)) }
        ensures forget { IfOk result (λ event. IfSome event IsForget) };

    /// Notes the first entry, the restart that has made this host of what was kept.
    fn begin(&mut self, alloc: Global, core: &Core, entry: &Entry) -> Result<(), NoMemory>
        ensures same { forgets self.new ≡ forgets self.old }
        ensures notes { (base : Kept) → Legal base (entry.now ∷ [])
            → after base (entry.now ∷ []) ≡ state_of core.now
            → OnOk result (notes self.new base (entry.now ∷ [])) };

    /// Notes one more entry behind those that were noted, which has left this host, and whose durable changes are spelled
    /// so.
    fn note(
        &mut self,
        alloc: Global,
        core: &Core,
        entry: &Entry,
        changes: &[u8],
    ) -> Result<(), NoMemory>
        ensures same { forgets self.new ≡ forgets self.old }
        ensures notes { (base : Kept) (history : List entries.Entry) → notes self.old base history
            → Legal base (history ++ entry.now ∷ [])
            → after base (history ++ entry.now ∷ []) ≡ state_of core.now
            → spelled_all (changes_of (after base history) entry.now.event) ≡ Some changes.now
            → OnOk result (notes self.new base (history ++ entry.now ∷ [])) };
}
