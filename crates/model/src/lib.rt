// What a profile is: the definitions of positions, contexts, summaries and trees of record lists, and their laws.
// Nothing here runs; each function's contract holds laws that the definitions have for every metric.

#![tactic(auto)]

ghost use Rattle.std.specs.Prelude.{◌≡◌};
ghost use Rattle.model.specs.Summaries.{InOrder, Joins, JoinsRows, Adds, Prefixes, Rowless};
ghost use Rattle.model.specs.Trees.{Values, Paths, Inclusive};
ghost use Rattle.model.specs.Limits.{Counted};

use metrics::metric::Metric;

// What holds of the summary of every list of records.
pub fn summary_laws<M: Metric>()
    ensures in_order { InOrder M.measure }
    ensures joins { Joins M.measure }
    ensures rows { JoinsRows M.measure }
    ensures adds { Adds M.measure }
    ensures prefixes { Prefixes M.measure }
    ensures counted { Counted M.measure }
    ensures rowless { Rowless M.measure }
{}

// What holds of the tree of every list of records.
pub fn tree_laws<M: Metric>()
    ensures values { Values M.measure }
    ensures paths { Paths M.measure }
    ensures inclusive { Inclusive M.measure }
{}
