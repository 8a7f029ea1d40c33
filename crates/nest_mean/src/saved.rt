ghost use Rattle.std.specs.Prelude.{◌≡◌, [], ◌∷◌, map, if◌then◌else◌, IfSome};
ghost use Rattle.std.specs.List.{concat};
ghost use Rattle.nest_syntax.specs.Value.{scalar_at};
ghost use Rattle.nest_syntax.specs.Locals.{given, given_in_arm, given_in_loop, names_given, locals_of, with_zeros};
ghost use Rattle.nest_mean.specs.NamesChanged.{changed_in_loop};
ghost use Rattle.nest_mean.specs.Added.{HasNames};
ghost use Rattle.nest_mean.specs.Saved.{taken_over};

use crate::values::Scalars;
use nest_syntax::{Arm, Loop, Stmt};

/// Puts the scalars that an invocation changes aside.
pub(crate) fn put_aside(invoked: &Loop, source: &Scalars, target: &mut Scalars)
    ensures { target.new ≡ taken_over (changed_in_loop invoked.now) source.now target.old }
{
    take_over_loop(invoked, true, source.as_slice(), target);
}

// Takes over from other scalars those of the names that are given values; those that are assigned are among them where
// `assigned` says so.
#[cycle(take)]
fn take_over_loop(inner: &Loop, assigned: bool, source: &[i64], target: &mut Scalars)
    ensures { target.new ≡ taken_over (given_in_loop assigned inner.now) source.now target.old }
{
    take_over(inner.name, source, target);
    take_over_block(inner.body.as_slice(), assigned, source, target);
}

fn take_over(name: u32, source: &[i64], target: &mut Scalars)
    ensures { target.new ≡ taken_over (name ∷ []) source.now target.old }
{
    target.set(name, value_at(source, name));
}

fn take_over_assigned(name: u32, assigned: bool, source: &[i64], target: &mut Scalars)
    ensures { target.new ≡ taken_over (if assigned then name ∷ [] else []) source.now target.old }
{
    if assigned {
        take_over(name, source, target);
    }
}

#[cycle(take)]
fn take_over_block(stmts: &[Stmt], assigned: bool, source: &[i64], target: &mut Scalars)
    ensures { target.new ≡ taken_over (names_given assigned stmts.now) source.now target.old }
{
    for stmt in stmts {
        take_over_stmt(stmt, assigned, source, target);
    }
}

#[cycle(take)]
fn take_over_stmt(stmt: &Stmt, assigned: bool, source: &[i64], target: &mut Scalars)
    ensures { target.new ≡ taken_over (given assigned stmt.now) source.now target.old }
{
    match stmt {
        Stmt::Declare { name, .. } => take_over(*name, source, target),
        Stmt::Assign { name, .. } => take_over_assigned(*name, assigned, source, target),
        Stmt::Write { .. } => {}
        Stmt::If { arms, other } => {
            take_over_arms(arms.as_slice(), assigned, source, target);
            take_over_block(other.as_slice(), assigned, source, target);
        }
        Stmt::Loop(inner) => take_over_loop(inner, assigned, source, target),
    }
}

#[cycle(take)]
fn take_over_arms(arms: &[Arm], assigned: bool, source: &[i64], target: &mut Scalars)
    ensures { target.new ≡ taken_over (concat (map (given_in_arm assigned) arms.now)) source.now target.old }
{
    for arm in arms {
        take_over_block(arm.body.as_slice(), assigned, source, target);
    }
}

/// Puts the scalars that an invocation changes back. Where there is a list of their names, each once, the cost grows
/// with the list, and not with the text of the body.
pub(crate) fn put_back(
    invoked: &Loop,
    names: Option<&[u32]>,
    source: &Scalars,
    target: &mut Scalars,
)
    requires { IfSome names (λ list. HasNames list.now (changed_in_loop invoked.now)) }
    ensures { target.new ≡ taken_over (changed_in_loop invoked.now) source.now target.old }
{
    let source = source.as_slice();
    match names {
        Some(names) => take_over_names(names, source, target),
        None => take_over_loop(invoked, true, source, target),
    }
}

/// Gives each local of a body 0, by a list of the locals where there is one.
pub fn clear_locals(body: &[Stmt], locals: Option<&[u32]>, scalars: &mut Scalars)
    requires { IfSome locals (λ list. HasNames list.now (locals_of body.now)) }
    ensures { scalars.new ≡ with_zeros (locals_of body.now) scalars.old }
{
    let zeros = no_values();
    match locals {
        Some(locals) => take_over_names(locals, zeros, scalars),
        None => take_over_block(body, false, zeros, scalars),
    }
}

fn take_over_names(names: &[u32], source: &[i64], target: &mut Scalars)
    ensures { target.new ≡ taken_over names.now source.now target.old }
{
    for name in names {
        take_over(*name, source, target);
    }
}

// The value of a name's scalar, 0 where the name isn't there.
fn value_at(source: &[i64], name: u32) -> i64
    ensures { result ≡ scalar_at source.now name }
{
    source.get(name as usize).copied().unwrap_or(0)
}

// No values: so each name's is 0.
fn no_values<'a>() -> &'a [i64]
    ensures { result.now ≡ [] }
{
    &[]
}
