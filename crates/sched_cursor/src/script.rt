//! The events of a program that stand in its text, found from the last to the first: so what comes behind each is known.
ghost use Rattle.std.specs.Prelude.{◌≡◌, ◌+◌, ◌++◌, [], ◌∷◌, ℕ, List, IfOk, map, length};
ghost use Rattle.std.specs.List.{flat_map};
ghost use Rattle.nest_syntax.specs.Course.{Setting, Item, Tested, chosen, in_order, item_of, tested_of, region_of};
ghost use Rattle.sched_cursor.specs.declared.node.Next.TheVariants as following;
ghost use Rattle.sched_cursor.specs.declared.node.Node.{Node as Event};
ghost use Rattle.sched_cursor.specs.declared.node.Node.TheVariants as event;
ghost use Rattle.sched_cursor.specs.Doings.{Doing, doings, doings_in_arm, doings_of, doings_in_region};
ghost use Rattle.sched_cursor.specs.Scripts.{header_of, block_of, Puts, PutsRegion};

use crate::node::{Header, Next, Node};
use nest_syntax::{Arm, Expr, Line, Loop, NoMemory, Op, Stmt};
use std::alloc::Global;

/// The events found so far, and the number of the body that stands first behind what is still to come.
#[derive(Drop)]
pub(crate) struct Script {
    pub(crate) nodes: Vec<Node>,
    pub(crate) first: u32,
}

impl Script {
    /// Puts an event in front.
    fn push(&mut self, node: Node) -> Result<Next, NoMemory>
        ensures { IfOk result (λ next. (next ≡ following.Node (length self.old.nodes.items)) × (self.new.nodes.items ≡ self.old.nodes.items ++ node ∷ []) × (self.new.first ≡ self.old.first)) }
    {
        let number = self.nodes.len();
        self.nodes.push(node)?;
        Ok(Next::Node(number))
    }

    // The number of the next body, from the last to the first. It is there for each body that the program has.
    fn body(&mut self) -> Result<u32, NoMemory>
        ensures { IfOk result (λ body. (self.old.first ≡ body + 1) × (self.new.first ≡ body) × (self.new.nodes.items ≡ self.old.nodes.items)) }
    {
        let Some(body) = self.first.checked_sub(1) else {
            return Err(NoMemory);
        };
        self.first = body;
        Ok(body)
    }

    /// Puts the regions of a program in front, and tells where they begin.
    pub(crate) fn regions(&mut self, alloc: Global, regions: &[Loop]) -> Result<Next, NoMemory>
        ensures { IfOk result (λ start. PutsRegion self.old.nodes.items self.old.first self.new.nodes.items self.new.first
            (λ (s : Setting). in_order (map (region_of s) regions.now)) (flat_map doings_in_region regions.now) following.End start) }
    {
        let mut start = Next::End;
        for k in (0..regions.len()).rev() {
            start = self.region(alloc, &regions[k], start)?;
        }
        Ok(start)
    }

    fn region(&mut self, alloc: Global, region: &Loop, leave: Next) -> Result<Next, NoMemory>
        ensures { IfOk result (λ start. PutsRegion self.old.nodes.items self.old.first self.new.nodes.items self.new.first
            (λ (s : Setting). region_of s region.now) (doings_in_region region.now) leave start) }
    {
        let items = self.block(alloc, region.body.as_slice(), Next::Turn)?;
        let header = copy_header(alloc, region)?;
        self.push(Node::Region {
            header,
            items,
            leave,
        })
    }

    #[cycle(items)]
    fn block(&mut self, alloc: Global, stmts: &[Stmt], next: Next) -> Result<Next, NoMemory>
        ensures { IfOk result (λ start. Puts self.old.nodes.items self.old.first self.new.nodes.items self.new.first
            (block_of stmts.now) (doings_of stmts.now) next start) }
    {
        let mut start = next;
        for k in (0..stmts.len()).rev() {
            start = self.item(alloc, &stmts[k], start)?;
        }
        Ok(start)
    }

    #[cycle(items)]
    fn item(&mut self, alloc: Global, item: &Stmt, next: Next) -> Result<Next, NoMemory>
        ensures { IfOk result (λ start. Puts self.old.nodes.items self.old.first self.new.nodes.items self.new.first
            (λ (s : Setting). item_of s item.now) (doings item.now) next start) }
    {
        match item {
            Stmt::Declare { line, name, value } => self.change(
                alloc,
                *line,
                *name,
                Op::Set,
                value,
                next,
            ),
            Stmt::Assign {
                line,
                name,
                op,
                value,
            } => self.change(alloc, *line, *name, *op, value, next),
            Stmt::Write { line, .. } => {
                let body = self.body()?;
                self.push(Node::Write {
                    line: *line,
                    body,
                    next,
                })
            }
            Stmt::If { arms, other } => {
                let otherwise = self.block(alloc, other.as_slice(), next)?;
                self.arms(alloc, arms.as_slice(), otherwise, next)
            }
            Stmt::Loop(invoked) => {
                let header = copy_header(alloc, invoked)?;
                let body = self.body()?;
                self.push(Node::Invoke { header, body, next })
            }
        }
    }

    // The arms of an `if`, before what it does otherwise.
    #[cycle(items)]
    fn arms(
        &mut self,
        alloc: Global,
        arms: &[Arm],
        otherwise: Next,
        next: Next,
    ) -> Result<Next, NoMemory>
        ensures { IfOk result (λ start. (nodes : List Event) (first : ℕ) (other : Setting → Item) (does : List Doing)
            → Puts nodes first self.old.nodes.items self.old.first other does next otherwise
            → Puts nodes first self.new.nodes.items self.new.first (λ (s : Setting). chosen (map (tested_of s) arms.now) (other s)) (flat_map doings_in_arm arms.now ++ does) next start) }
    {
        let mut start = otherwise;
        for k in (0..arms.len()).rev() {
            start = self.arm(alloc, &arms[k], start, next)?;
        }
        Ok(start)
    }

    #[cycle(items)]
    fn arm(
        &mut self,
        alloc: Global,
        arm: &Arm,
        otherwise: Next,
        next: Next,
    ) -> Result<Next, NoMemory>
        ensures { IfOk result (λ start. (nodes : List Event) (first : ℕ) (arms : Setting → List Tested) (other : Setting → Item) (does : List Doing)
            → Puts nodes first self.old.nodes.items self.old.first (λ (s : Setting). chosen (arms s) (other s)) does next otherwise
            → Puts nodes first self.new.nodes.items self.new.first (λ (s : Setting). chosen (tested_of s arm.now ∷ arms s) (other s)) (doings_in_arm arm.now ++ does) next start) }
    {
        let taken = self.block(alloc, arm.body.as_slice(), next)?;
        let test = arm.test.copy(alloc)?;
        self.push(Node::Test {
            line: arm.line,
            test,
            taken,
            otherwise,
        })
    }

    fn change(
        &mut self,
        alloc: Global,
        line: Line,
        name: u32,
        op: Op,
        value: &Expr,
        next: Next,
    ) -> Result<Next, NoMemory>
        ensures { IfOk result (λ start. (start ≡ following.Node (length self.old.nodes.items)) × (self.new.nodes.items ≡ self.old.nodes.items ++ event.Change line name op value.now next ∷ []) × (self.new.first ≡ self.old.first)) }
    {
        let value = value.copy(alloc)?;
        self.push(Node::Change {
            line,
            name,
            op,
            value,
            next,
        })
    }
}

fn copy_header(alloc: Global, headed: &Loop) -> Result<Header, NoMemory>
    ensures { IfOk result (λ copied. copied ≡ header_of headed.now) }
{
    Ok(Header {
        line: headed.line,
        name: headed.name,
        low: headed.low.copy(alloc)?,
        high: headed.high.copy(alloc)?,
        through: headed.through,
        step: headed.step,
    })
}
