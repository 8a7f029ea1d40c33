//! The text of `deps`.
ghost use Rattle.std.specs.Prelude.{◌≡◌, ◌++◌, [], IfOk, OnOk, slice_index_or};
ghost use Rattle.std.specs.List.{flat_map};
ghost use Rattle.nest_report.specs.Deps.{access_text, kind_text, loop_line, item_lines, region_lines, deps_text};

use dep_graph::{AccessAt, LoopKind, classify};
use itoa::Buffer;
use nest_check::Checked;
use nest_syntax::{Arm, Loop, Name, NoMemory, Stmt};
use std::alloc::Global;

/// A line for each loop that invokes a body, in textual order: `loop line L doall` where any two of its iterations are
/// apart, else `loop line L plain ARRAY KIND line P KIND line Q` with the first two accesses that no test parts.
pub fn print_deps(alloc: Global, checked: &Checked) -> Result<Vec<u8>, NoMemory>
    ensures { IfOk result (λ text. text.items ≡ deps_text checked.now) }
{
    let mut text = Vec::new(alloc);
    add_regions(
        alloc,
        checked,
        checked.program().regions.as_slice(),
        &mut text,
    )?;
    Ok(text)
}

fn add_regions(
    alloc: Global,
    checked: &Checked,
    regions: &[Loop],
    text: &mut Vec<u8>,
) -> Result<(), NoMemory>
    ensures { OnOk result (text.new.items ≡ text.old.items ++ flat_map (region_lines checked.now) regions.now) }
{
    for region in regions {
        add_items(alloc, checked, region.body.as_slice(), text)?;
    }
    Ok(())
}

#[cycle(items)]
fn add_items(
    alloc: Global,
    checked: &Checked,
    stmts: &[Stmt],
    text: &mut Vec<u8>,
) -> Result<(), NoMemory>
    ensures { OnOk result (text.new.items ≡ text.old.items ++ flat_map (item_lines checked.now) stmts.now) }
{
    for stmt in stmts {
        add_item(alloc, checked, stmt, text)?;
    }
    Ok(())
}

#[cycle(items)]
fn add_item(
    alloc: Global,
    checked: &Checked,
    stmt: &Stmt,
    text: &mut Vec<u8>,
) -> Result<(), NoMemory>
    ensures { OnOk result (text.new.items ≡ text.old.items ++ item_lines checked.now stmt.now) }
{
    match stmt {
        Stmt::Declare { .. } => Ok(()),
        Stmt::Assign { .. } => Ok(()),
        Stmt::Write { .. } => Ok(()),
        Stmt::If { arms, other } => {
            add_arms(alloc, checked, arms.as_slice(), text)?;
            add_items(alloc, checked, other.as_slice(), text)
        }
        Stmt::Loop(nest) => add_loop(alloc, checked, nest, text),
    }
}

#[cycle(items)]
fn add_arms(
    alloc: Global,
    checked: &Checked,
    arms: &[Arm],
    text: &mut Vec<u8>,
) -> Result<(), NoMemory>
    ensures { OnOk result (text.new.items ≡ text.old.items ++ flat_map (λ arm. flat_map (item_lines checked.now) arm.body) arms.now) }
{
    for arm in arms {
        add_items(alloc, checked, arm.body.as_slice(), text)?;
    }
    Ok(())
}

// The line of a loop that invokes a body.
fn add_loop(
    alloc: Global,
    checked: &Checked,
    nest: &Loop,
    text: &mut Vec<u8>,
) -> Result<(), NoMemory>
    ensures { OnOk result (text.new.items ≡ text.old.items ++ loop_line checked.now nest.now) }
{
    let kind = classify(alloc, nest, checked)?;
    let mut number = Buffer::new();
    text.extend_from_slice(b"loop line ")?;
    text.extend_from_slice(number.format(nest.line.0).as_bytes())?;
    add_kind(checked.program().names.as_slice(), &kind, text)?;
    text.push(b'\n')?;
    Ok(())
}

fn add_kind(names: &[Name], kind: &LoopKind, text: &mut Vec<u8>) -> Result<(), NoMemory>
    ensures { OnOk result (text.new.items ≡ text.old.items ++ kind_text names.now kind.now) }
{
    match kind {
        LoopKind::DoAll => {
            text.extend_from_slice(b" doall")?;
            Ok(())
        }
        LoopKind::Plain { first, second } => {
            text.extend_from_slice(b" plain ")?;
            text.extend_from_slice(name_bytes(names, first.array))?;
            add_access(*first, text)?;
            add_access(*second, text)
        }
    }
}

fn add_access(at: AccessAt, text: &mut Vec<u8>) -> Result<(), NoMemory>
    ensures { OnOk result (text.new.items ≡ text.old.items ++ access_text at) }
{
    let mut number = Buffer::new();
    text.extend_from_slice(if at.write { b" write" } else { b" read" })?;
    text.extend_from_slice(b" line ")?;
    text.extend_from_slice(number.format(at.line.0).as_bytes())?;
    Ok(())
}

// The bytes of a name. A name that isn't there has none.
pub(crate) fn name_bytes(names: &[Name], name: u32) -> &[u8]
    ensures { result.now ≡ slice_index_or names.now name [] }
{
    match names.get(name as usize) {
        Some(bytes) => bytes.as_slice(),
        None => &[],
    }
}
