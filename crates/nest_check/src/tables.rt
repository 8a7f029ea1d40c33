ghost use Rattle.std.specs.Prelude.{◌≡◌, ◌<◌, ◌^◌, ℕ, IfOk, length, map, EachIndex, slice_index, replicate, None};
ghost use Rattle.nest_syntax.specs.Arrays.{Array, arrays_of, sizes_of, array_names};
ghost use Rattle.nest_check.specs.Declarations.{names_of, index_of_name};
ghost use Rattle.nest_check.specs.Tables.{at_name, index_noted};

use nest_syntax::{Decl, Line, NoMemory};
use std::alloc::Global;

/// The lengths of the declared arrays, in order.
pub(crate) fn lengths_of(alloc: Global, decls: &[Decl]) -> Result<Vec<u64>, NoMemory>
    ensures { IfOk result (λ lengths. lengths.items ≡ sizes_of (arrays_of decls.now)) }
{
    let mut lengths = Vec::new(alloc);
    for decl in decls {
        match decl {
            Decl::Array { length, .. } => lengths.push(*length)?,
            Decl::Scalar { .. } => {}
        }
    }
    Ok(lengths)
}

/// The names of the declared arrays, in order.
pub(crate) fn array_names(alloc: Global, decls: &[Decl]) -> Result<Vec<u32>, NoMemory>
    ensures { IfOk result (λ names. names.items ≡ array_names (arrays_of decls.now)) }
{
    let mut names = Vec::new(alloc);
    for decl in decls {
        match decl {
            Decl::Array { name, .. } => names.push(*name)?,
            Decl::Scalar { .. } => {}
        }
    }
    Ok(names)
}

/// The names of declarations, in order.
pub(crate) fn declared_names(
    alloc: Global,
    declarations: &[(u32, Line)],
) -> Result<Vec<u32>, NoMemory>
    ensures { IfOk result (λ names. names.items ≡ names_of declarations.now) }
{
    let mut names = Vec::new(alloc);
    for declaration in declarations {
        names.push(declaration.0)?;
    }
    Ok(names)
}

/// A table that has for each name the index at which it stands first in a list.
pub(crate) fn index_table(alloc: Global, names: &[u32]) -> Result<Vec<Option<u32>>, NoMemory>
    requires { length names.now < 2 ^ 32 }
    ensures { IfOk result (λ table. (name : ℕ) → at_name table.items name ≡ index_of_name names.now name) }
{
    let mut table = empty_table(alloc, table_length(names))?;
    let mut index = 0u32;
    for name in names {
        note_index(&mut table, *name, index);
        index += 1;
    }
    Ok(table)
}

// A table that has no index for a name.
fn empty_table(alloc: Global, length: usize) -> Result<Vec<Option<u32>>, NoMemory>
    ensures { IfOk result (λ table. table.items ≡ replicate length None) }
{
    let mut table = Vec::with_capacity(alloc, length)?;
    for _index in 0..length {
        table.push(None)?;
    }
    Ok(table)
}

// How long a table is that has an index for each name.
fn table_length(names: &[u32]) -> usize
    ensures { EachIndex names.now (λ k. slice_index names.now k < result) }
{
    let mut length = 0usize;
    for name in names {
        if length <= *name as usize {
            length = *name as usize + 1;
        }
    }
    length
}

// Notes an index, unless the name has one.
fn note_index(table: &mut Vec<Option<u32>>, name: u32, index: u32)
    requires { name < length table.old.items }
    ensures { table.new.items ≡ index_noted table.old.items name index }
{
    if table[name as usize].is_none() {
        table[name as usize] = Some(index);
    }
}
