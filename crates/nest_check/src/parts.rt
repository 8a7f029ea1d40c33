ghost use Rattle.std.specs.Prelude.{◌≡◌, ℕ, map};
ghost use Rattle.nest_syntax.specs.Lowest.{lowest, lines_where};
ghost use Rattle.nest_check.specs.Through.{through};
ghost use Rattle.nest_check.specs.Parts.{ALoop, AnExpression, all_at, parts, parts_in_arm, parts_in_loop};
ghost use Rattle.nest_check.specs.Rules.{parts_of, wrong_steps, deep_loops, part_line, is_deep};
ghost use Rattle.nest_check.specs.Noted.{noted, counted_depth};

use crate::expressions::is_deeper;
use nest_syntax::{Arm, Expr, Line, Loop, Lowest, Program, Stmt};

const MOST_STEP: u64 = 65_536;

const MOST_LEVELS: u32 = 4;

const MOST_DEPTH: u32 = 16;

/// The lowest lines of loops with a wrong step, of loops that stand too deep, and of expressions that are too deep.
#[derive(Debug, Drop)]
pub(crate) struct Breaches {
    pub steps: Lowest,
    pub levels: Lowest,
    pub depths: Lowest,
}

impl Breaches {
    fn note_loop(&mut self, line: Line, step: u64, depth: u32)
        ensures { self.new ≡ noted self.old (ALoop line step depth) }
    {
        if step == 0 || MOST_STEP < step {
            self.steps.note(line);
        }
        if MOST_LEVELS < depth {
            self.levels.note(line);
        }
    }

    fn note_expression(&mut self, line: Line, expr: &Expr)
        ensures { self.new ≡ noted self.old (AnExpression line expr.now) }
    {
        if is_deeper(expr, MOST_DEPTH) {
            self.depths.note(line);
        }
    }
}

/// The lowest lines of a program at which its loops and expressions break a rule.
pub(crate) fn part_breaches(program: &Program) -> Breaches
    ensures steps { result.steps ≡ lowest (wrong_steps program.now) }
    ensures levels { result.levels ≡ lowest (deep_loops program.now) }
    ensures depths { result.depths ≡ lowest (lines_where part_line is_deep (parts_of program.now)) }
{
    let mut found = Breaches {
        steps: Lowest::new(),
        levels: Lowest::new(),
        depths: Lowest::new(),
    };
    walk_regions(program.regions.as_slice(), &mut found);
    found
}

fn walk_regions(regions: &[Loop], found: &mut Breaches)
    ensures { found.new ≡ through noted found.old (all_at (map parts_in_loop regions.now) 1) }
{
    for region in regions {
        walk_loop(region, 1, found);
    }
}

#[cycle(walk)]
fn walk_block(stmts: &[Stmt], depth: u32, found: &mut Breaches)
    ensures { (at : ℕ) → depth ≡ counted_depth at → found.new ≡ through noted found.old (all_at (map parts stmts.now) at) }
{
    for stmt in stmts {
        walk_stmt(stmt, depth, found);
    }
}

#[cycle(walk)]
fn walk_stmt(stmt: &Stmt, depth: u32, found: &mut Breaches)
    ensures { (at : ℕ) → depth ≡ counted_depth at → found.new ≡ through noted found.old (parts stmt.now at) }
{
    match stmt {
        Stmt::Declare { line, value, .. } => found.note_expression(*line, value),
        Stmt::Assign { line, value, .. } => found.note_expression(*line, value),
        Stmt::Write {
            line,
            place,
            value,
            ..
        } => {
            found.note_expression(*line, place);
            found.note_expression(*line, value)
        }
        Stmt::If { arms, other } => {
            walk_arms(arms.as_slice(), depth, found);
            walk_block(other.as_slice(), depth, found)
        }
        Stmt::Loop(inner) => walk_loop(inner, depth, found),
    }
}

#[cycle(walk)]
fn walk_arms(arms: &[Arm], depth: u32, found: &mut Breaches)
    ensures { (at : ℕ) → depth ≡ counted_depth at → found.new ≡ through noted found.old (all_at (map parts_in_arm arms.now) at) }
{
    for arm in arms {
        found.note_expression(arm.line, &arm.test);
        walk_block(arm.body.as_slice(), depth, found);
    }
}

#[cycle(walk)]
fn walk_loop(inner: &Loop, depth: u32, found: &mut Breaches)
    ensures { (at : ℕ) → depth ≡ counted_depth at → found.new ≡ through noted found.old (parts_in_loop inner.now at) }
{
    found.note_loop(inner.line, inner.step, depth);
    found.note_expression(inner.line, &inner.low);
    found.note_expression(inner.line, &inner.high);
    walk_block(inner.body.as_slice(), depth.saturating_add(1), found)
}
