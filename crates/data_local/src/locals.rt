ghost use Rattle.std.specs.Prelude.{◌≡◌, ℕ, ◌++◌, ◌<◌, ◌≤◌, ◌+◌, ◌*◌, ◌^◌, List, [], reverse, IfOk, OnOk};
ghost use Rattle.std.specs.List.{flat_map, list_any};
ghost use Rattle.nest_syntax.specs.Among.{is_among};
ghost use Rattle.data_local.specs.Names.{scalars_in};
ghost use Rattle.nest_syntax.specs.Arrays.{Array};
ghost use Rattle.data_local.specs.Givings.{givings};
ghost use Rattle.data_local.specs.DataLocals.{AreDataLocals};
ghost use Rattle.data_local.specs.Written.{TellsWritten};
ghost use Rattle.data_local.specs.Rows.{told, IsBuilt, row_edges, row_starts, row_names, edges_to, start_of};

use crate::names::{draw_edges, node_of_name};
use crate::reach::{Edge, Nodes, reached};
use crate::rows::{Row, keep_block};
use crate::written::WrittenArrays;
use nest_syntax::{Expr, NoMemory, Stmt};
use std::alloc::Global;
use std::marker::Model;

/// The data locals of a body, as a list of names in rising order.
#[derive(Debug, Drop)]
pub struct DataLocals {
    names: Vec<u32>,
}

impl Model for DataLocals {
    ghost use Rattle.std.specs.Prelude.{ℕ, List};
    ghost use Rattle.std.specs.List.Sorted.{IsStrictlyIncreasing};

    ghost Value = { List ℕ };

    ghost view = { λ d. d.names.items };

    ghost invariant = { λ d. IsStrictlyIncreasing d.names.items };
}

impl DataLocals {
    // Names in any order, each as often as it comes.
    fn of(mut names: Vec<u32>) -> DataLocals
        ensures { (name : ℕ) → is_among result name ≡ is_among names.items name }
    {
        names.sort_unstable();
        names.dedup();
        DataLocals { names }
    }

    /// An equal value.
    pub fn copy(&self, alloc: Global) -> Result<DataLocals, NoMemory>
        ensures { IfOk result (λ copied. copied ≡ self.now) }
    {
        Ok(DataLocals {
            names: Vec::from_slice(alloc, self.names.as_slice())?,
        })
    }

    /// Whether a name is a data local of the body.
    pub fn has(&self, name: u32) -> bool
        ensures { result ≡ is_among self.now name }
    {
        self.names.as_slice().binary_search(&name).is_ok()
    }

    /// Whether an expression names a data local of the body.
    pub fn are_named_in(&self, expr: &Expr) -> bool
        ensures { result ≡ list_any (is_among self.now) (scalars_in expr.now) }
    {
        match expr {
            Expr::Number(_) => false,
            Expr::Scalar(name) => self.has(*name),
            Expr::Word(_, place) => self.are_named_in(place.get()),
            Expr::Unary(_, part) => self.are_named_in(part.get()),
            Expr::Binary(_, left, right) => {
                self.are_named_in(left.get()) || self.are_named_in(right.get())
            }
            Expr::Choice(test, first, second) => {
                self.are_named_in(test.get())
                    || self.are_named_in(first.get())
                    || self.are_named_in(second.get())
            }
        }
    }
}

/// The data locals of a body, in a program with these written arrays.
pub(crate) fn data_locals_of(
    alloc: Global,
    written: &WrittenArrays,
    body: &[Stmt],
) -> Result<DataLocals, NoMemory>
    ensures { IfOk result (λ locals. (arrays : List Array) → TellsWritten arrays written.now → AreDataLocals arrays body.now locals) }
{
    let rows = rows_of(alloc, body)?;
    let graph = graph_of(alloc, &rows, written)?;
    let edges = graph.edges;
    let nodes = reached(alloc, &graph.starts, edges)?;
    let names = reached_names(alloc, &rows, &nodes)?;
    Ok(DataLocals::of(names))
}

fn rows_of<'a>(alloc: Global, body: &'a [Stmt]) -> Result<Vec<Row<'a>>, NoMemory>
    ensures told { IfOk result (λ rows. told (reverse rows.items) ≡ givings body.now) }
    ensures built { IfOk result (λ rows. IsBuilt (reverse rows.items)) }
{
    let mut rows = Vec::new(alloc);
    keep_block(body, 0, &mut rows)?;
    Ok(rows)
}

// The names that are given in rows and reached, each as often as it is given.
fn reached_names(alloc: Global, rows: &[Row], nodes: &Nodes) -> Result<Vec<u32>, NoMemory>
    ensures { IfOk result (λ names. names.items ≡ flat_map (row_names nodes.now) rows.now) }
{
    let mut names = Vec::new(alloc);
    for row in rows {
        add_reached(*row, nodes, &mut names)?;
    }
    Ok(names)
}

fn add_reached(row: Row, nodes: &Nodes, names: &mut Vec<u32>) -> Result<(), NoMemory>
    ensures { OnOk result (names.new.items ≡ names.old.items ++ row_names nodes.now row.entry) }
{
    match row {
        Row::Test { .. } => {}
        Row::Gives { name, .. } => {
            if nodes.has(node_of_name(name)) {
                names.push(name)?;
            }
        }
    }
    Ok(())
}

// The graph in which the data locals are reached: an edge leads to each giving and each test from the scalars in its
// expression and from the test that it stands under, and those that name a written array are the starts.
#[derive(Drop)]
struct Graph {
    starts: Vec<u64>,
    edges: Vec<Edge>,
}

fn graph_of(alloc: Global, rows: &[Row], written: &WrittenArrays) -> Result<Graph, NoMemory>
    ensures edges { IfOk result (λ graph. graph.edges.items ≡ flat_map row_edges rows.now) }
    ensures starts { IfOk result (λ graph. (arrays : List Array) → TellsWritten arrays written.now → graph.starts.items ≡ flat_map (row_starts arrays) rows.now) }
{
    let mut graph = Graph {
        starts: Vec::new(alloc),
        edges: Vec::new(alloc),
    };
    for row in rows {
        graph.draw_row(*row, written)?;
    }
    Ok(graph)
}

impl Graph {
    fn draw_row(&mut self, row: Row, written: &WrittenArrays) -> Result<(), NoMemory>
        ensures edges { OnOk result (self.new.edges.items ≡ self.old.edges.items ++ row_edges row.entry) }
        ensures starts { OnOk result ((arrays : List Array) → TellsWritten arrays written.now → self.new.starts.items ≡ self.old.starts.items ++ row_starts arrays row.entry) }
    {
        match row {
            Row::Test {
                number,
                test,
                under,
            } => self.draw(node_of_test(number), test, under, written),
            Row::Gives { name, value, under } => self.draw(
                node_of_name(name),
                value,
                under,
                written,
            ),
        }
    }

    fn draw(
        &mut self,
        to: u64,
        expr: &Expr,
        under: u32,
        written: &WrittenArrays,
    ) -> Result<(), NoMemory>
        ensures edges { OnOk result (self.new.edges.items ≡ self.old.edges.items ++ edges_to to expr.now under) }
        ensures starts { OnOk result ((arrays : List Array) → TellsWritten arrays written.now → self.new.starts.items ≡ self.old.starts.items ++ start_of arrays to expr.now) }
    {
        if written.are_named_in(expr) {
            self.starts.push(to)?;
        }
        draw_edges(expr, to, &mut self.edges)?;
        self.edges.push(Edge {
            from: node_of_test(under),
            to,
        })?;
        Ok(())
    }
}

fn node_of_test(number: u32) -> u64
    ensures { result ≡ 2 * number + 1 }
{
    2 * u64::from(number) + 1
}
