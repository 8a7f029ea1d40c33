//! The names that an invocation changes, and the locals of a body, each once.
ghost use Rattle.std.specs.Prelude.{◌≡◌, ℕ, List, [], ◌∷◌, map, if◌then◌else◌, IfSome, OnOk};
ghost use Rattle.std.specs.List.{concat};
ghost use Rattle.nest_syntax.specs.Among.{is_among};
ghost use Rattle.nest_syntax.specs.Locals.{given, given_in_arm, given_in_loop, names_given, locals_of};
ghost use Rattle.nest_mean.specs.NamesChanged.{changed_in_loop};
ghost use Rattle.nest_mean.specs.Added.{Adds, HasNames};

use arrayvec::{ArrayVec, CapacityError};
use nest_syntax::{Arm, Loop, Stmt};

/// Room for the locals of a checked body, which changes no other names.
pub(crate) type FewNames = ArrayVec<u32, 16>;

/// The names that an invocation changes, each once. None comes where there are more than 16, as in no checked program.
pub(crate) fn few_changed(invoked: &Loop) -> Option<FewNames>
    ensures { IfSome result (λ names. HasNames names.items (changed_in_loop invoked.now)) }
{
    let mut names = ArrayVec::new();
    match add_loop(invoked, true, &mut names) {
        Ok(()) => Some(names),
        Err(_) => None,
    }
}

/// The locals of a body, each once. None comes where there are more than 16, as in no checked program.
pub(crate) fn few_locals(body: &[Stmt]) -> Option<FewNames>
    ensures { IfSome result (λ names. HasNames names.items (locals_of body.now)) }
{
    let mut names = ArrayVec::new();
    match add_block(body, false, &mut names) {
        Ok(()) => Some(names),
        Err(_) => None,
    }
}

/// The list as a slice, where there is one.
pub(crate) fn listed(names: &Option<FewNames>) -> Option<&[u32]>
    ensures { (all : List ℕ) → IfSome names.now (λ few. HasNames few.items all) → IfSome result (λ list. HasNames list.now all) }
{
    match names {
        Some(names) => Some(names.as_slice()),
        None => None,
    }
}

fn add_name(name: u32, names: &mut FewNames) -> Result<(), CapacityError<u32>>
    ensures { OnOk result (Adds names.old.items names.new.items (name ∷ [])) }
{
    if has(names.as_slice(), name) {
        return Ok(());
    }
    names.try_push(name)
}

fn add_assigned(name: u32, assigned: bool, names: &mut FewNames) -> Result<(), CapacityError<u32>>
    ensures { OnOk result (Adds names.old.items names.new.items (if assigned then name ∷ [] else [])) }
{
    if assigned {
        return add_name(name, names);
    }
    Ok(())
}

fn has(names: &[u32], name: u32) -> bool
    ensures { result ≡ is_among names.now name }
{
    names.iter().any(|other| name == *other)
}

// The names that are given values; those that are assigned are among them where `assigned` says so.
#[cycle(add)]
fn add_loop(inner: &Loop, assigned: bool, names: &mut FewNames) -> Result<(), CapacityError<u32>>
    ensures { OnOk result (Adds names.old.items names.new.items (given_in_loop assigned inner.now)) }
{
    add_name(inner.name, names)?;
    add_block(inner.body.as_slice(), assigned, names)
}

#[cycle(add)]
fn add_block(stmts: &[Stmt], assigned: bool, names: &mut FewNames) -> Result<(), CapacityError<u32>>
    ensures { OnOk result (Adds names.old.items names.new.items (names_given assigned stmts.now)) }
{
    for stmt in stmts {
        add_stmt(stmt, assigned, names)?;
    }
    Ok(())
}

#[cycle(add)]
fn add_stmt(stmt: &Stmt, assigned: bool, names: &mut FewNames) -> Result<(), CapacityError<u32>>
    ensures { OnOk result (Adds names.old.items names.new.items (given assigned stmt.now)) }
{
    match stmt {
        Stmt::Declare { name, .. } => add_name(*name, names),
        Stmt::Assign { name, .. } => add_assigned(*name, assigned, names),
        Stmt::Write { .. } => Ok(()),
        Stmt::If { arms, other } => {
            add_arms(arms.as_slice(), assigned, names)?;
            add_block(other.as_slice(), assigned, names)
        }
        Stmt::Loop(inner) => add_loop(inner, assigned, names),
    }
}

#[cycle(add)]
fn add_arms(arms: &[Arm], assigned: bool, names: &mut FewNames) -> Result<(), CapacityError<u32>>
    ensures { OnOk result (Adds names.old.items names.new.items (concat (map (given_in_arm assigned) arms.now))) }
{
    for arm in arms {
        add_block(arm.body.as_slice(), assigned, names)?;
    }
    Ok(())
}
