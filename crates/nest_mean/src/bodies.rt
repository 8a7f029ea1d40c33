ghost use Rattle.std.specs.Prelude.{◌≡◌, ◌↔◌, ◌<◌, IsTrue, ℕ, ℤ, pos, List, [], ◌∷◌, map, length, FitsSigned, IfOk, IfSome, false};
ghost use Rattle.std.specs.Int.{w64};
ghost use Rattle.std.specs.List.{concat};
ghost use Rattle.nest_syntax.specs.declared.tree.Stmt.TheOpen.{Stmt-F};
ghost use Rattle.nest_syntax.specs.Words.{operation_of, turns, counted, variable};
ghost use Rattle.nest_syntax.specs.Arrays.{arrays_of, sizes_of, located};
ghost use Rattle.nest_syntax.specs.Value.{scalar_at, value};
ghost use Rattle.nest_syntax.specs.Turn.{Turn, inside, writing, sequence, repeat, effect, effect_node, loop_effect, turn_of};
ghost use Rattle.nest_syntax.specs.Reads.{on_words};
ghost use Rattle.nest_syntax.specs.Course.{bodies_of};
ghost use Rattle.nest_syntax.specs.Outcome.{body_at};
ghost use Rattle.nest_syntax.proofs.Equations.{arm_effect};
ghost use Rattle.nest_syntax.specs.Among.{is_among};
ghost use Rattle.nest_syntax.specs.Locals.{locals_of};
ghost use Rattle.word_store.specs.Memory.{HasLayout};
ghost use Rattle.nest_mean.specs.NamesChanged.{names_changed, changed, changed_in_arm, changed_in_loop};
ghost use Rattle.nest_mean.specs.Added.{HasNames};
ghost use Rattle.nest_mean.specs.TurnRun.{ended};
ghost use Rattle.nest_mean.specs.TurnParts.{Runs, RunsArms, went_on_with, at_line, wrote};

use crate::expressions::{array_of, eval, is_zero};
use crate::numbered::body_in_regions;
use crate::saved::clear_locals;
use crate::values::Scalars;
use nest_check::Checked;
use nest_syntax::{Arm, Cause, Expr, Line, Loop, Op, Stmt};
use word_store::{Words, assign, count_turns, value_in_turn};

/// Why the turn of a body stopped, and the line on which the statement, arm or loop begins that trapped.
#[derive(Clone, Copy, Debug, PartialEq, Eq)]
pub struct TurnTrap {
    pub cause: Cause,
    pub line: Line,
}

/// Runs one iteration of the body with this number; `has_body` says whether there is one. Each local begins with 0,
/// whatever its name's scalar has. At a trap the words stay as they were at that moment. The scalars of the locals are
/// changed; all others are kept, since the bodies of a checked program assign locals alone.
pub fn run_turn(
    checked: &Checked,
    body: u32,
    scalars: &mut Scalars,
    words: &mut Words,
) -> Result<(), TurnTrap>
    requires there { body < length (bodies_of checked.now) }
    requires sizes { HasLayout words.old checked.now.decls }
    ensures turn { on_words (sizes_of (arrays_of checked.now.decls)) (turn_of (arrays_of checked.now.decls) (body_at (bodies_of checked.now) body) scalars.old) words.old.words
        ≡ ended result words.new.words }
    ensures sizes { words.new.sizes ≡ words.old.sizes }
    ensures names { length scalars.new ≡ length scalars.old }
    ensures others { (name : ℕ) → is_among (locals_of (body_at (bodies_of checked.now) body)) name ≡ false → scalar_at scalars.new name ≡ scalar_at scalars.old name }
{
    match body_in_regions(checked.program().regions.as_slice(), body) {
        Ok(stmts) => run_body(stmts, None, scalars, words, checked),
        Err(_) => Ok(()),
    }
}

/// Whether there is a body with this number; they are numbered from 0 in textual order.
pub fn has_body(checked: &Checked, body: u32) -> bool
    ensures { IsTrue result ↔ (body < length (bodies_of checked.now)) }
{
    match body_in_regions(checked.program().regions.as_slice(), body) {
        Ok(_) => true,
        Err(_) => false,
    }
}

/// The statements of the body with this number; where there is no such body, none.
pub fn body_of(checked: &Checked, body: u32) -> &[Stmt]
    ensures { result.now ≡ body_at (bodies_of checked.now) body }
{
    match body_in_regions(checked.program().regions.as_slice(), body) {
        Ok(stmts) => stmts,
        Err(_) => no_statements(),
    }
}

fn no_statements<'a>() -> &'a [Stmt]
    ensures { result.now ≡ [] }
{
    &[]
}

/// Runs one iteration of a body, as `run_turn` does; a list of its locals spares a walk over its text.
pub(crate) fn run_body(
    body: &[Stmt],
    locals: Option<&[u32]>,
    scalars: &mut Scalars,
    words: &mut Words,
    checked: &Checked,
) -> Result<(), TurnTrap>
    requires locals { IfSome locals (λ list. HasNames list.now (locals_of body.now)) }
    requires sizes { HasLayout words.old checked.now.decls }
    ensures turn { on_words (sizes_of (arrays_of checked.now.decls)) (turn_of (arrays_of checked.now.decls) body.now scalars.old) words.old.words
        ≡ ended result words.new.words }
    ensures sizes { words.new.sizes ≡ words.old.sizes }
    ensures names { length scalars.new ≡ length scalars.old }
    ensures others { (name : ℕ) → is_among (names_changed body.now) name ≡ false → scalar_at scalars.new name ≡ scalar_at scalars.old name }
{
    clear_locals(body, locals, scalars);
    run_block(body, scalars, words, checked)
}

#[cycle(turn)]
fn run_block(
    stmts: &[Stmt],
    scalars: &mut Scalars,
    words: &mut Words,
    checked: &Checked,
) -> Result<(), TurnTrap>
    requires sizes { HasLayout words.old checked.now.decls }
    ensures { Runs (arrays_of checked.now.decls) (sequence (map (effect (arrays_of checked.now.decls)) stmts.now)) (names_changed stmts.now)
        result scalars.old words.old scalars.new words.new }
{
    for stmt in stmts {
        run_stmt(stmt, scalars, words, checked)?;
    }
    Ok(())
}

#[cycle(turn)]
fn run_stmt(
    stmt: &Stmt,
    scalars: &mut Scalars,
    words: &mut Words,
    checked: &Checked,
) -> Result<(), TurnTrap>
    requires sizes { HasLayout words.old checked.now.decls }
    ensures { Runs (arrays_of checked.now.decls) (effect (arrays_of checked.now.decls) stmt.now) (changed stmt.now)
        result scalars.old words.old scalars.new words.new }
{
    match stmt {
        Stmt::Declare { line, name, value } => {
            change_scalar(*line, *name, Op::Set, value, scalars, words, checked)
        }
        Stmt::Assign {
            line,
            name,
            op,
            value,
        } => change_scalar(*line, *name, *op, value, scalars, words, checked),
        Stmt::Write {
            line,
            array,
            place,
            op,
            value,
        } => {
            let at = value_of(place, *line, scalars, words, checked)?;
            let right = value_of(value, *line, scalars, words, checked)?;
            write_word(*line, *array, at, *op, right, words, checked)
        }
        Stmt::If { arms, other } => {
            if run_arms(arms.as_slice(), scalars, words, checked)? {
                return Ok(());
            }
            run_block(other.as_slice(), scalars, words, checked)
        }
        Stmt::Loop(inner) => run_loop(inner, scalars, words, checked),
    }
}

// Whether an arm was taken: the first whose test isn't 0.
#[cycle(turn)]
fn run_arms(
    arms: &[Arm],
    scalars: &mut Scalars,
    words: &mut Words,
    checked: &Checked,
) -> Result<bool, TurnTrap>
    requires sizes { HasLayout words.old checked.now.decls }
    ensures { RunsArms (arrays_of checked.now.decls) (map (arm_effect (arrays_of checked.now.decls)) arms.now) (concat (map changed_in_arm arms.now))
        result scalars.old words.old scalars.new words.new }
{
    for arm in arms {
        let test = value_of(&arm.test, arm.line, scalars, words, checked)?;
        if !is_zero(test) {
            run_block(arm.body.as_slice(), scalars, words, checked)?;
            return Ok(true);
        }
    }
    Ok(false)
}

#[cycle(turn)]
fn run_loop(
    inner: &Loop,
    scalars: &mut Scalars,
    words: &mut Words,
    checked: &Checked,
) -> Result<(), TurnTrap>
    requires sizes { HasLayout words.old checked.now.decls }
    ensures { Runs (arrays_of checked.now.decls) (loop_effect (arrays_of checked.now.decls) inner.now) (changed_in_loop inner.now)
        result scalars.old words.old scalars.new words.new }
{
    let low = value_of(&inner.low, inner.line, scalars, words, checked)?;
    let high = value_of(&inner.high, inner.line, scalars, words, checked)?;
    match turns_of(low, high, inner.step, inner.through) {
        Ok(count) => run_turns(inner, low, count, scalars, words, checked),
        Err(cause) => Err(TurnTrap {
            cause,
            line: inner.line,
        }),
    }
}

// The turns of a loop whose bounds are known.
#[cycle(turn)]
fn run_turns(
    inner: &Loop,
    low: i64,
    count: u64,
    scalars: &mut Scalars,
    words: &mut Words,
    checked: &Checked,
) -> Result<(), TurnTrap>
    requires sizes { HasLayout words.old checked.now.decls }
    requires reach { (k : ℕ) → k < count → FitsSigned w64 (variable low inner.now.step k) }
    ensures { Runs (arrays_of checked.now.decls)
        (repeat count 0 (variable low inner.now.step) inner.now.name (sequence (map (effect (arrays_of checked.now.decls)) inner.now.body)))
        (changed_in_loop inner.now) result scalars.old words.old scalars.new words.new }
{
    for k in 0..count {
        scalars.set(inner.name, value_in_turn(low, inner.step, k));
        run_block(inner.body.as_slice(), scalars, words, checked)?;
    }
    Ok(())
}

// `=` and `op=` of a scalar: the old value is read behind the right side's evaluation.
fn change_scalar(
    line: Line,
    name: u32,
    op: Op,
    value: &Expr,
    scalars: &mut Scalars,
    words: &Words,
    checked: &Checked,
) -> Result<(), TurnTrap>
    requires sizes { HasLayout words.now checked.now.decls }
    ensures { Runs (arrays_of checked.now.decls) (effect_node (arrays_of checked.now.decls) (Stmt-F.Assign line name op value.now)) (name ∷ [])
        result scalars.old words.now scalars.new words.now }
{
    let right = value_of(value, line, scalars, words, checked)?;
    match assign(op, scalars.get(name), right) {
        Ok(new) => {
            scalars.set(name, new);
            Ok(())
        }
        Err(cause) => Err(TurnTrap { cause, line }),
    }
}

// `=` and `op=` of a word, once the subscript and the right side are known.
fn write_word(
    line: Line,
    name: u32,
    at: i64,
    op: Op,
    right: i64,
    words: &mut Words,
    checked: &Checked,
) -> Result<(), TurnTrap>
    requires sizes { HasLayout words.old checked.now.decls }
    ensures written { (rest : Turn) → on_words (sizes_of (arrays_of checked.now.decls))
        (inside line (located (arrays_of checked.now.decls) name at) (λ array n. writing line (operation_of op) array n right rest)) words.old.words
        ≡ went_on_with (sizes_of (arrays_of checked.now.decls)) result (λ done. rest) words.new.words }
    ensures sizes { words.new.sizes ≡ words.old.sizes }
{
    match change_word(name, at, op, right, words, checked) {
        Ok(()) => Ok(()),
        Err(cause) => Err(TurnTrap { cause, line }),
    }
}

// Where the old word can be read the new one can be written.
fn change_word(
    name: u32,
    at: i64,
    op: Op,
    right: i64,
    words: &mut Words,
    checked: &Checked,
) -> Result<(), Cause>
    requires sizes { HasLayout words.old checked.now.decls }
    ensures written { (line : Line) (rest : Turn) → on_words (sizes_of (arrays_of checked.now.decls))
        (inside line (located (arrays_of checked.now.decls) name at) (λ array n. writing line (operation_of op) array n right rest)) words.old.words
        ≡ wrote (sizes_of (arrays_of checked.now.decls)) line result rest words.new.words }
    ensures sizes { words.new.sizes ≡ words.old.sizes }
{
    let array = array_of(name, checked).ok_or(Cause::Index)?;
    let old = words.load(array, at).ok_or(Cause::Index)?;
    let new = assign(op, old, right)?;
    let _ = words.store(array, at, new);
    Ok(())
}

// The value of an expression, or its trap with the line of its statement.
fn value_of(
    expr: &Expr,
    line: Line,
    scalars: &Scalars,
    words: &Words,
    checked: &Checked,
) -> Result<i64, TurnTrap>
    requires sizes { HasLayout words.now checked.now.decls }
    ensures { result ≡ at_line line (value (arrays_of checked.now.decls) scalars.now words.now.words expr.now) }
{
    match eval(expr, scalars, words, checked) {
        Ok(value) => Ok(value),
        Err(cause) => Err(TurnTrap { cause, line }),
    }
}

// How often a loop turns. For a step of 0, which no checked program has, the definition gives no turn, or one where the
// loop goes through its high bound and `low` isn't above it.
pub fn turns_of(low: i64, high: i64, step: u64, through: bool) -> Result<u64, Cause>
    ensures count { result ≡ counted (turns low high step through) }
    ensures reach { IfOk result (λ n. (k : ℕ) → k < n → FitsSigned w64 (variable low step k)) }
{
    if step > 0 {
        return count_turns(low, high, step, through);
    }
    Ok(u64::from(through && low <= high))
}
