ghost use Rattle.std.specs.Prelude.{◌≡◌, IfOk, OnOk, map};
ghost use Rattle.nest_syntax.specs.Lowest.{IsLowestOf};
ghost use Rattle.nest_scope.specs.declared.occurrences.Level.TheVariants as level;
ghost use Rattle.nest_scope.specs.Occurrences.{bound, occurrence, read_in, in_stmt, in_arm, in_loop, in_block, in_decl, in_decls, in_regions, behind_decls, in_same_scope};
ghost use Rattle.nest_scope.specs.Rules.{lines_redeclared, lines_unknown, lines_const_written, lines_loop_variable_assigned, lines_scheduler_scalar_assigned};
ghost use Rattle.nest_scope.specs.Restored.{restored};
ghost use Rattle.nest_scope.specs.Noted.{noted, all_noted};

use crate::breaches::{Found, ScopeBreaches};
use crate::occurrences::{Action, Binding, Level, Occurrence};
use crate::scopes::{Scope, Shadowed};
use nest_syntax::{Arm, Decl, Expr, Line, Loop, NoMemory, Program, Stmt};
use std::alloc::Global;

/// The lowest line that breaks each of the rules on names, found in one walk over the program: its time grows with the
/// size of the program, whatever its names. Each rule is judged by itself, also where another one is broken.
pub fn scope_breaches(alloc: Global, program: &Program) -> Result<ScopeBreaches, NoMemory>
    ensures redeclared { IfOk result (λ found. IsLowestOf (lines_redeclared program.now) found.redeclared) }
    ensures unknown { IfOk result (λ found. IsLowestOf (lines_unknown program.now) found.unknown) }
    ensures const_written { IfOk result (λ found. IsLowestOf (lines_const_written program.now) found.const_written) }
    ensures loop_variable { IfOk result (λ found. IsLowestOf (lines_loop_variable_assigned program.now) found.loop_variable_assigned) }
    ensures scheduler_scalar { IfOk result (λ found. IsLowestOf (lines_scheduler_scalar_assigned program.now) found.scheduler_scalar_assigned) }
{
    let mut scope = Scope::unbound(alloc, program.names.len())?;
    let mut found = Found::new();
    walk_decls(program.decls.as_slice(), &mut scope, &mut found);
    walk_regions(alloc, program.regions.as_slice(), &mut scope, &mut found)?;
    Ok(found.breaches())
}

fn walk_decls(decls: &[Decl], scope: &mut Scope, found: &mut Found)
    ensures found { found.new ≡ all_noted found.old (in_decls decls.now scope.old) }
    ensures scope { scope.new ≡ behind_decls decls.now scope.old }
{
    for decl in decls {
        walk_decl(decl, scope, found);
    }
}

fn walk_decl(decl: &Decl, scope: &mut Scope, found: &mut Found)
    ensures found { found.new ≡ all_noted found.old (in_decl decl.now level.Outside scope.old).occurrences }
    ensures scope { scope.new ≡ (in_decl decl.now level.Outside scope.old).behind }
{
    match decl {
        Decl::Array {
            line,
            name,
            fixed,
            ..
        } => {
            note(*line, Level::Outside, Action::Declared, *name, scope, found);
            scope.bind(*name, Binding::of_array(*fixed));
        }
        Decl::Scalar { line, name, .. } => {
            note(*line, Level::Outside, Action::Declared, *name, scope, found);
            scope.bind(*name, Level::Outside.declared());
        }
    }
}

fn walk_regions(
    alloc: Global,
    regions: &[Loop],
    scope: &mut Scope,
    found: &mut Found,
) -> Result<(), NoMemory>
    ensures { OnOk result (found.new ≡ all_noted found.old (in_regions regions.now scope.old)) }
{
    for region in regions {
        walk_loop(alloc, region, Level::Outside, scope, found)?;
    }
    Ok(())
}

#[cycle(walk)]
fn walk_block(
    alloc: Global,
    stmts: &[Stmt],
    level: Level,
    scope: &mut Scope,
    found: &mut Found,
) -> Result<(), NoMemory>
    ensures found { OnOk result (found.new ≡ all_noted found.old (in_block stmts.now level scope.old)) }
    ensures scope { OnOk result (scope.new ≡ scope.old) }
{
    let mut shadowed = Shadowed::new(alloc);
    for stmt in stmts {
        walk_stmt(alloc, stmt, level, scope, &mut shadowed, found)?;
    }
    shadowed.restore(scope);
    Ok(())
}

#[cycle(walk)]
fn walk_stmt(
    alloc: Global,
    stmt: &Stmt,
    level: Level,
    scope: &mut Scope,
    shadowed: &mut Shadowed,
    found: &mut Found,
) -> Result<(), NoMemory>
    ensures found { OnOk result (found.new ≡ all_noted found.old (in_stmt stmt.now level scope.old).occurrences) }
    ensures scope { OnOk result (scope.new ≡ (in_stmt stmt.now level scope.old).behind) }
    ensures shadowed { OnOk result (restored shadowed.new scope.new ≡ restored shadowed.old scope.old) }
{
    match stmt {
        Stmt::Declare { line, name, value } => {
            note(*line, level, Action::Declared, *name, scope, found);
            read(value, *line, level, scope, found);
            scope.declare(*name, level.declared(), shadowed)
        }
        Stmt::Assign {
            line,
            name,
            value,
            ..
        } => {
            note(*line, level, Action::Assigned, *name, scope, found);
            read(value, *line, level, scope, found);
            Ok(())
        }
        Stmt::Write {
            line,
            array,
            place,
            value,
            ..
        } => {
            note(*line, level, Action::WordWritten, *array, scope, found);
            read(place, *line, level, scope, found);
            read(value, *line, level, scope, found);
            Ok(())
        }
        Stmt::If { arms, other } => {
            walk_arms(alloc, arms.as_slice(), level, scope, found)?;
            walk_block(alloc, other.as_slice(), level, scope, found)
        }
        Stmt::Loop(inside) => walk_loop(alloc, inside, level, scope, found),
    }
}

#[cycle(walk)]
fn walk_arms(
    alloc: Global,
    arms: &[Arm],
    level: Level,
    scope: &mut Scope,
    found: &mut Found,
) -> Result<(), NoMemory>
    ensures found { OnOk result (found.new ≡ all_noted found.old (in_same_scope (map in_arm arms.now) level scope.old)) }
    ensures scope { OnOk result (scope.new ≡ scope.old) }
{
    for arm in arms {
        read(&arm.test, arm.line, level, scope, found);
        walk_block(alloc, arm.body.as_slice(), level, scope, found)?;
    }
    Ok(())
}

#[cycle(walk)]
fn walk_loop(
    alloc: Global,
    inside: &Loop,
    level: Level,
    scope: &mut Scope,
    found: &mut Found,
) -> Result<(), NoMemory>
    ensures found { OnOk result (found.new ≡ all_noted found.old (in_loop inside.now level scope.old)) }
    ensures scope { OnOk result (scope.new ≡ scope.old) }
{
    note(
        inside.line,
        level,
        Action::Declared,
        inside.name,
        scope,
        found,
    );
    read(&inside.low, inside.line, level, scope, found);
    let mut shadowed = Shadowed::new(alloc);
    scope.declare(inside.name, level.variable(), &mut shadowed)?;
    read(&inside.high, inside.line, level, scope, found);
    walk_block(alloc, inside.body.as_slice(), level.inner(), scope, found)?;
    shadowed.restore(scope);
    Ok(())
}

fn read(expr: &Expr, line: Line, level: Level, scope: &Scope, found: &mut Found)
    ensures { found.new ≡ all_noted found.old (read_in line level scope.now expr.now) }
{
    match expr {
        Expr::Number(_) => {}
        Expr::Scalar(name) => note(line, level, Action::ScalarRead, *name, scope, found),
        Expr::Word(array, place) => {
            note(line, level, Action::WordRead, *array, scope, found);
            read(place.get(), line, level, scope, found);
        }
        Expr::Unary(_, part) => read(part.get(), line, level, scope, found),
        Expr::Binary(_, left, right) => {
            read(left.get(), line, level, scope, found);
            read(right.get(), line, level, scope, found);
        }
        Expr::Choice(test, first, second) => {
            read(test.get(), line, level, scope, found);
            read(first.get(), line, level, scope, found);
            read(second.get(), line, level, scope, found);
        }
    }
}

fn note(line: Line, level: Level, action: Action, name: u32, scope: &Scope, found: &mut Found)
    ensures { found.new ≡ noted found.old (occurrence line level action (bound scope.now name)) }
{
    let binding = scope.bound(name);
    found.note(Occurrence {
        line,
        level,
        action,
        binding,
    });
}
