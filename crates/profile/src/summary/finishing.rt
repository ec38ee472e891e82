// From a summary to its tree.
ghost use Rattle.std.specs.Prelude.{◌≡◌};
ghost use Rattle.model.specs.Trees.{finished};
ghost use Rattle.profile.specs.View.{view};
ghost use Rattle.profile.specs.Leaves.{tree_view};

use super::Summary;
use crate::tree::Tree;
use metrics::metric::Metric;

impl<'a, M: Metric> Summary<'a, M> {
    // Uses the summary up and makes its tree, in the same rows: all levels become one.
    pub fn finish(self) -> Tree<'a, M>
        ensures { tree_view M.measure M.means result ≡ finished M.measure (view M.measure M.means self.entry).is }
    {
        let Summary {
            table,
            level,
            current,
        } = self;
        let table = table.flatten(level);
        let current = table.mark_of(current);
        Tree {
            table,
            strays: level,
            current,
        }
    }
}
