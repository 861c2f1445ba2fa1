//! Laws of the definitions. A call does nothing; its clause is the law.

ghost use Rattle.std.specs.Prelude.{List};
ghost use Rattle.sw_roster.specs.Beats.{IsRecent, recent_of};
ghost use Rattle.sw_roster.specs.declared.beats.Beat as beats;

/// What events and focus lines make of the clients with a focus, last focused first, is the clients that have a focus and
/// weren't closed since, by falling focus.
#[tactic(auto, using(crate::proofs::Recents::recent_by_focus))]
pub fn focus_orders_the_clients()
    ensures { (past : List beats.Beat) → IsRecent past (recent_of past) }
{}
