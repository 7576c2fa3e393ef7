//! What states tell after the events of a run. The contracts here are laws.

ghost use Rattle.std.specs.Prelude.{◌≡◌, List, [], fold};
ghost use Rattle.std.specs.FinSet as set;
ghost use Rattle.rv_event.specs.declared.event.Event.{Event};
ghost use Rattle.watchers.specs.Counters.{counters, covered_after, all_covered, last_sixteen, last_after};
ghost use Rattle.watchers.specs.Pairs.{both_after};

use crate::watch::Watched;

/// From no program counter on, the fold of the step of [`crate::Covered`] over a list of events is
/// the set of their program counters, and the fold of the step of [`crate::LastSixteen`] is the last
/// sixteen of these, the oldest first.
pub fn states_after_a_run()
    ensures covered { (events : List Event) → fold covered_after set.empty events ≡ all_covered events }
    ensures last { (events : List Event) → fold last_after [] events ≡ last_sixteen (counters events) }
{}

/// The fold of the step of a pair of states is the pair of the two folds.
pub fn pairs_follow_both<A: Watched, B: Watched>()
    ensures { (a : A) (b : B) (events : List Event)
        → fold (both_after A.after B.after) (a, b) events ≡ (fold A.after a events, fold B.after b events) }
{}
