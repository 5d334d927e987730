// The sweep: records that the roots don't use go.

ghost use Rattle.std.specs.Prelude.{◌≡◌, OnErr, IfOk, OnOk};
ghost use Rattle.query_core.specs.Soundness.{IsSound};
ghost use Rattle.query_core.specs.Marking.{root_nodes};
ghost use Rattle.query_core.specs.Sweeping.{Sweeps};

use super::Graph;
use crate::rules::Rules;
use std::alloc::AllocError;

impl<R: Rules> Graph<R> {
    /// The nodes of the roots that have one.
    fn root_nodes(&self, roots: &[R::Key]) -> Result<Vec<u32>, AllocError>
        ensures { IfOk result (λ nodes. nodes.items ≡ root_nodes R.queries self.now roots.now) }
    {
        let mut nodes = Vec::new(self.alloc);
        let mut rest = roots;
        'roots: while let Some((root, behind)) = rest.split_first() {
            rest = behind;
            let before = self.store.root_at(nodes.len());
            let Some(node) = self.find(root, before, None) else {
                continue;
            };
            nodes.push(node)?;
        }
        Ok(nodes)
    }

    /// Removes each record that is no input and that recorded reads don't reach from the records of the roots, and gives how many went.
    ///
    /// What stays keeps its node; the node of a record that went may be given to another key. No key may be demanded before the next
    /// revision. The time is that of the roots, of what goes, and of the records that were added or lost their last reader since the last
    /// sweep. After want of memory the graph is as before.
    pub fn sweep(&mut self, roots: &[R::Key]) -> Result<usize, AllocError>
        ensures ok { IfOk result (λ count. Sweeps R.queries self.old self.new roots.now count) }
        ensures err { OnErr result (self.new ≡ self.old) }
        ensures demanded { self.new.demanded_at ≡ self.old.demanded_at }
        ensures sound { IsSound R.queries self.new }
    {
        let nodes = self.root_nodes(roots)?;
        let count = self.store.sweep(nodes)?;
        Ok(count)
    }
}
