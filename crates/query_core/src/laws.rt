// Laws of graphs, with nothing to run. A caller names its rules.

ghost use Rattle.query_core.specs.Laws.{VerifiedHolds, DemandsBegin, DemandsGoOn, DueBefore, HeldOn, VerifiedOn};

use crate::rules::Rules;

/// What is verified now holds the value of its key over the inputs.
pub fn verified_holds<R: Rules>()
    ensures { VerifiedHolds R.queries }
{}

/// Before the first demand nothing was done.
pub fn demands_begin<R: Rules>()
    ensures { DemandsBegin R.queries }
{}

/// Demands of one revision, and then one more: by all of them is left what each of them leaves, each key that ran is reached from one of
/// their roots, and it wasn't verified and was due before the first. It ran once, as no run of a sound graph stands twice.
pub fn demands_go_on<R: Rules>()
    ensures { DemandsGoOn R.queries }
{}

/// A key that isn't verified and is due after demands was due before the first of them.
pub fn due_before_demands<R: Rules>()
    ensures { DueBefore R.queries }
{}

/// What is verified now stays so in later demands of the revision.
pub fn verified_on<R: Rules>()
    ensures { VerifiedOn R.queries }
{}

/// A node that a demand gave holds its key's value after later demands of the revision too.
pub fn held_on<R: Rules>()
    ensures { HeldOn R.queries }
{}
