//! Which accesses are known to depend on none before them, array by array, without a look at each pair.
ghost use Rattle.std.specs.Prelude.{◌≡◌, IfOk, if◌then◌else◌, slice_set, true};
ghost use Rattle.dep_graph.specs.Seen.{AreFree};

use crate::accesses::Access;
use crate::seen::Known;
use indexmap::IndexSet;
use nest_syntax::NoMemory;
use std::alloc::Global;

/// Which accesses are known to be free: to depend on none up to them.
pub(crate) fn free_accesses(
    alloc: Global,
    step: u64,
    accesses: &[Access],
) -> Result<Vec<bool>, NoMemory>
    ensures { IfOk result (λ free. AreFree step accesses.now free.items) }
{
    let arrays = arrays_written(alloc, accesses)?;
    let mut free = none_free(alloc, step, accesses)?;
    for array in &arrays {
        note_free(*array, step, accesses, &mut free);
    }
    Ok(free)
}

fn none_free(alloc: Global, step: u64, accesses: &[Access]) -> Result<Vec<bool>, NoMemory>
    ensures { IfOk result (λ free. AreFree step accesses.now free.items) }
{
    Ok(vec![in alloc; false; accesses.len()]?)
}

// The arrays that are written, each once.
fn arrays_written(alloc: Global, accesses: &[Access]) -> Result<Vec<u32>, NoMemory> {
    let mut found = IndexSet::new(alloc);
    let mut arrays = Vec::new(alloc);
    for access in accesses {
        if access.at.write && found.insert(access.at.array)? {
            arrays.push(access.at.array)?;
        }
    }
    Ok(arrays)
}

/// Notes the accesses to an array that are free.
fn note_free(array: u32, step: u64, accesses: &[Access], free: &mut Vec<bool>)
    requires { AreFree step accesses.now free.old.items }
    ensures { AreFree step accesses.now free.new.items }
{
    let mut known = Known::nothing();
    for k in 0..accesses.len() {
        let access = &accesses[k];
        known.note(array, access);
        note(k, known.frees(array, step, access), free);
    }
}

fn note(k: usize, is_free: bool, free: &mut Vec<bool>)
    ensures { free.new.items ≡ (if is_free then slice_set free.old.items k true else free.old.items) }
{
    if is_free && k < free.len() {
        free[k] = true;
    }
}
