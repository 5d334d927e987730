// Several demands of one revision, and what they do together.

ghost use Rattle.std.specs.Prelude.{◌≡◌, OnOk, true};
ghost use Rattle.query_core.specs.Graph.{is_verified};
ghost use Rattle.query_core.specs.Lists.{Each};
ghost use Rattle.query_core.specs.Soundness.{IsSound, IsUnswept};
ghost use Rattle.query_core.specs.Laws.{Demanded};

use query_core::{Graph, Rules, TryCopy, demands_begin, demands_go_on, verified_on};
use std::alloc::AllocError;
use std::sync::ledger::Ledger;
use steps::Steps;

/// Demands these keys one after the other in one revision. Each key that ran is reached from one of them, and wasn't verified and was due
/// before the first demand. After all, each of these keys is verified now.
pub fn demand_all<R: Rules, L: Ledger>(
    graph: &mut Graph<R>,
    rules: &R,
    roots: &[R::Key],
    steps: &mut Steps<L>,
) -> Result<(), AllocError>
    requires sound { IsSound R.queries graph.old }
    requires unswept { IsUnswept R.queries graph.old }
    ensures demanded { OnOk result (Demanded R.queries graph.old roots.now graph.new) }
    ensures verified { OnOk result (Each (λ k. is_verified R.queries graph.new k ≡ true) roots.now) }
{
    demands_begin::<R>();
    demands_go_on::<R>();
    verified_on::<R>();
    let mut rest = roots;
    'roots: while let Some((root, behind)) = rest.split_first() {
        let key = root.try_copy()?;
        graph.demand(rules, key, steps)?;
        rest = behind;
    }
    Ok(())
}
