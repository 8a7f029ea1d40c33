ghost use Rattle.std.specs.Prelude.{◌≡◌, ◌++◌, ◌∷◌, [], true, false, None, IfOk, OnOk, map, filter, slice_index_or};
ghost use Rattle.std.specs.Option.{option_map};
ghost use Rattle.dep_graph.specs.declared.accesses.Access.{Access as AccessValue};
ghost use Rattle.dep_graph.specs.Kinds.{is_write, may_depend, first_where, kind_from, kind_of};
ghost use Rattle.dep_graph.specs.Accesses.{accesses_of};

use crate::accesses::{Access, AccessAt, Invocation};
use crate::around::Around;
use crate::free::free_accesses;
use crate::given::names_given;
use crate::tests::is_parted;
use data_local::WrittenArrays;
use nest_check::Checked;
use nest_syntax::{Loop, NoMemory};
use std::alloc::Global;

/// `DoAll` where any two iterations of an invocation are known to be apart; else `Plain`, with the first pair of
/// accesses by which iterations may depend on each other.
#[derive(Clone, Copy, Debug, PartialEq, Eq)]
pub enum LoopKind {
    DoAll,
    Plain { first: AccessAt, second: AccessAt },
}

/// The kind of a loop that invokes a body of the program. `Plain` carries the first pair of accesses that no test
/// parts: pairs are in the order of the later access, then of the earlier one, and an access is paired with itself too.
pub fn classify(alloc: Global, nest: &Loop, checked: &Checked) -> Result<LoopKind, NoMemory>
    ensures { IfOk result (λ kind. kind ≡ kind_of checked.now nest.now) }
{
    let found = accesses_of(alloc, nest, checked)?;
    kind_of(alloc, nest.step, &found)
}

fn accesses_of(alloc: Global, nest: &Loop, checked: &Checked) -> Result<Vec<Access>, NoMemory>
    ensures { IfOk result (λ found. found.items ≡ accesses_of checked.now nest.now) }
{
    let invocation = Invocation {
        alloc,
        checked,
        nest,
        written: WrittenArrays::new(alloc, checked.program().decls.as_slice())?,
        given: names_given(alloc, nest.body.as_slice())?,
    };
    let mut found = Vec::new(alloc);
    invocation.add_block(nest.body.as_slice(), Around::Nothing, &mut found)?;
    Ok(found)
}

#[tactic(auto, using(crate::proofs::Firsts::kind_found, crate::proofs::Firsts::writes_hold))]
fn kind_of(alloc: Global, step: u64, accesses: &[Access]) -> Result<LoopKind, NoMemory>
    ensures { IfOk result (λ kind. kind ≡ kind_from step [] accesses.now) }
{
    let free = free_accesses(alloc, step, accesses)?;
    let mut writes = Vec::new(alloc);
    for k in 0..accesses.len() {
        let second = &accesses[k];
        if let Some(first) = first_up_to(
            &accesses[..=k],
            &writes,
            is_free(&free, k),
            step,
            second,
        ) {
            return Ok(LoopKind::Plain {
                first,
                second: second.at,
            });
        }
        note_write(second, &mut writes)?;
    }
    Ok(LoopKind::DoAll)
}

fn note_write<'a>(access: &'a Access, writes: &mut Vec<&'a Access>) -> Result<(), NoMemory>
    ensures { OnOk result (map (λ a. a.now) writes.new.items ≡ map (λ a. a.now) writes.old.items ++ filter is_write (access.now ∷ [])) }
{
    if access.at.write {
        writes.push(access)?;
    }
    Ok(())
}

fn is_free(free: &[bool], k: usize) -> bool
    ensures { result ≡ slice_index_or free.now k false }
{
    match free.get(k) {
        Some(is_free) => *is_free,
        None => false,
    }
}

// The first of the accesses up to this one that may depend on it. No access is looked at where this one is known to be
// free; for a read only the writes are.
fn first_up_to(
    accesses: &[Access],
    writes: &[&Access],
    is_free: bool,
    step: u64,
    second: &Access,
) -> Option<AccessAt>
    requires free { is_free ≡ true → first_where (may_depend step second.now) accesses.now ≡ None }
    requires writes { second.now.at.write ≡ false → map (λ a. a.now) writes.now ≡ filter is_write accesses.now }
    ensures { result ≡ option_map (λ (a : AccessValue). a.at) (first_where (may_depend step second.now) accesses.now) }
{
    if is_free {
        None
    } else if second.at.write {
        first_of(accesses, step, second)
    } else {
        first_of_writes(writes, step, second)
    }
}

// The first of some accesses that may depend on this one.
fn first_of(accesses: &[Access], step: u64, second: &Access) -> Option<AccessAt>
    ensures { result ≡ option_map (λ (a : AccessValue). a.at) (first_where (may_depend step second.now) accesses.now) }
{
    for first in accesses {
        if may_depend(first, step, second) {
            return Some(first.at);
        }
    }
    None
}

fn first_of_writes(accesses: &[&Access], step: u64, second: &Access) -> Option<AccessAt>
    ensures { result ≡ option_map (λ (a : AccessValue). a.at) (first_where (may_depend step second.now) (map (λ a. a.now) accesses.now)) }
{
    for first in accesses {
        if may_depend(first, step, second) {
            return Some(first.at);
        }
    }
    None
}

fn may_depend(first: &Access, step: u64, second: &Access) -> bool
    ensures { result ≡ may_depend step second.now first.now }
{
    first.at.array == second.at.array
        && (first.at.write || second.at.write)
        && !is_parted(step, &first.subscript, &second.subscript)
}
