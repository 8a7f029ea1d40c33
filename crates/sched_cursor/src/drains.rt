//! Which events are drains, found once.
ghost use Rattle.std.specs.Prelude.{◌≡◌, IfOk, map};
ghost use Rattle.nest_syntax.specs.declared.tree.Program.{Program};
ghost use Rattle.nest_syntax.specs.Arrays.{arrays_of};
ghost use Rattle.nest_partition.specs.Split.{IsSplitOf};
ghost use Rattle.sched_cursor.specs.Steps.{is_drain};

use crate::node::Node;
use nest_check::Checked;
use nest_partition::{Split, partition};
use nest_syntax::NoMemory;
use std::alloc::Global;

/// Of each event whether it is a drain.
pub(crate) fn drains_of(
    alloc: Global,
    checked: &Checked,
    nodes: &[Node],
) -> Result<Vec<bool>, NoMemory>
    ensures { IfOk result (λ drains. drains.items ≡ map (is_drain (arrays_of checked.now.decls)) nodes.now) }
{
    let split = partition(alloc, checked)?;
    let mut drains = Vec::new(alloc);
    for node in nodes {
        drains.push(node.is_drain(&split))?;
    }
    Ok(drains)
}

impl Node {
    // Whether an expression that the event evaluates is a drain point.
    #[tactic(auto, using(crate::proofs::Presents::either_of_two, crate::proofs::Presents::either_of_one))]
    fn is_drain(&self, split: &Split) -> bool
        ensures { (program : Program) → IsSplitOf program split.now → result ≡ is_drain (arrays_of program.decls) self.now }
    {
        match self {
            Node::Region { header, .. } | Node::Invoke { header, .. } => {
                split.drains(&header.low) || split.drains(&header.high)
            }
            Node::Change { value, .. } => split.drains(value),
            Node::Test { test, .. } => split.drains(test),
            Node::Write { .. } => false,
        }
    }
}
