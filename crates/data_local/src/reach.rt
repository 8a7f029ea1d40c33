ghost use Rattle.std.specs.Prelude.{◌≡◌, ℕ, ◌<◌, ◌≤◌, ◌||◌, ◌==◌, ◌↔◌, true, [], length, slice_index_or, IsTrue, IfOk, OnOk};
ghost use Rattle.std.specs.List.Sorted.{IsNonDecreasingBy, IsPermutation};
ghost use Rattle.nest_syntax.specs.Among.{is_among};
ghost use Rattle.data_local.specs.Reached.{is_edge, IsReached, IsGrown};

use indexmap::IndexSet;
use nest_syntax::NoMemory;
use std::alloc::Global;
use std::marker::Model;

/// An edge from one node to another. A node is a number.
#[derive(Clone, Copy, Debug)]
pub(crate) struct Edge {
    pub from: u64,
    pub to: u64,
}

/// A set of nodes.
#[derive(Debug, Drop)]
pub(crate) struct Nodes {
    nodes: IndexSet<u64>,
}

impl Model for Nodes {
    ghost use Rattle.std.specs.Prelude.{ℕ, List};

    ghost Value = { List ℕ };

    ghost view = { λ n. n.nodes.keys };
}

impl Nodes {
    pub(crate) fn has(&self, node: u64) -> bool
        ensures { result ≡ is_among self.now node }
    {
        self.nodes.contains(&node)
    }
}

/// The nodes that are reached from the starts along the edges, which may come in any order.
pub(crate) fn reached(
    alloc: Global,
    starts: &[u64],
    mut edges: Vec<Edge>,
) -> Result<Nodes, NoMemory>
    ensures { IfOk result (λ nodes. (node : ℕ) → IsTrue (is_among nodes node) ↔ IsReached starts.now edges.items node) }
{
    edges.sort_unstable_by_key(|edge| edge.from);
    Ok(Nodes {
        nodes: search(alloc, starts, &edges)?,
    })
}

// The same along edges in the order of their beginnings. The set is its own queue: the nodes come in the order in which
// they were found, and the edges of each are followed in turn.
fn search(alloc: Global, starts: &[u64], edges: &[Edge]) -> Result<IndexSet<u64>, NoMemory>
    requires { IsNonDecreasingBy (λ e. e.from) edges.now }
    ensures { IfOk result (λ found. (node : ℕ) → IsTrue (is_among found.keys node) ↔ IsReached starts.now edges.now node) }
{
    let mut found = found_at_first(alloc, starts)?;
    for next in 0..usize::MAX {
        let Some(node) = found.get_index(next) else {
            return Ok(found);
        };
        follow(*node, edges, &mut found)?;
    }
    Err(NoMemory)
}

fn found_at_first(alloc: Global, starts: &[u64]) -> Result<IndexSet<u64>, NoMemory>
    ensures { IfOk result (λ found. (node : ℕ) → is_among found.keys node ≡ is_among starts.now node) }
{
    let mut found = IndexSet::new(alloc);
    for start in starts {
        add(*start, &mut found)?;
    }
    Ok(found)
}

fn add(node: u64, found: &mut IndexSet<u64>) -> Result<(), NoMemory>
    ensures grown { OnOk result (IsGrown found.old.keys found.new.keys) }
    ensures more { OnOk result ((other : ℕ) → is_among found.new.keys other ≡ (is_among found.old.keys other || (other == node))) }
{
    found.insert(node)?;
    Ok(())
}

// Adds the nodes to which edges lead from a node.
fn follow(node: u64, edges: &[Edge], found: &mut IndexSet<u64>) -> Result<(), NoMemory>
    requires { IsNonDecreasingBy (λ e. e.from) edges.now }
    ensures grown { OnOk result (IsGrown found.old.keys found.new.keys) }
    ensures more { OnOk result ((to : ℕ) → is_among found.new.keys to ≡ (is_among found.old.keys to || is_edge edges.now node to)) }
{
    let first = edges.partition_point(|edge| edge.from < node);
    let behind = edges.partition_point(|edge| edge.from <= node);
    for index in first..behind {
        add(edges[index].to, found)?;
    }
    Ok(())
}
