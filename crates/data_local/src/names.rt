ghost use Rattle.std.specs.Prelude.{◌≡◌, ◌++◌, ◌*◌, OnOk};
ghost use Rattle.data_local.specs.Names.{scalars_in};
ghost use Rattle.data_local.specs.Rows.{edges_from};

use crate::reach::Edge;
use nest_syntax::{Expr, NoMemory};

/// The node of a name in a graph of names and tests.
pub(crate) fn node_of_name(name: u32) -> u64
    ensures { result ≡ 2 * name }
{
    2 * u64::from(name)
}

/// Draws an edge to a node from each scalar in an expression.
pub(crate) fn draw_edges(expr: &Expr, to: u64, edges: &mut Vec<Edge>) -> Result<(), NoMemory>
    ensures { OnOk result (edges.new.items ≡ edges.old.items ++ edges_from to (scalars_in expr.now)) }
{
    match expr {
        Expr::Number(_) => {}
        Expr::Scalar(name) => edges.push(Edge {
            from: node_of_name(*name),
            to,
        })?,
        Expr::Word(_, place) => draw_edges(place.get(), to, edges)?,
        Expr::Unary(_, part) => draw_edges(part.get(), to, edges)?,
        Expr::Binary(_, left, right) => {
            draw_edges(left.get(), to, edges)?;
            draw_edges(right.get(), to, edges)?;
        }
        Expr::Choice(test, first, second) => {
            draw_edges(test.get(), to, edges)?;
            draw_edges(first.get(), to, edges)?;
            draw_edges(second.get(), to, edges)?;
        }
    }
    Ok(())
}
