//! The report of a run.
ghost use Rattle.std.specs.Prelude.{◌≡◌, ◌++◌, IfOk, OnOk, Some, slice_index_or, []};
ghost use Rattle.std.specs.List.{flat_map};
ghost use Rattle.nest_syntax.specs.Arrays.{arrays_of, array_names};
ghost use Rattle.progress_board.specs.declared.options.Engine.TheVariants.{Domore};
ghost use Rattle.nest_report.specs.Report.{number_text, count_line, sign_text, speccross_line, barrier_line, engine_line, shared_counts, wait_counts, segment_counts, own_counts, counts_text};
ghost use Rattle.nest_report.specs.Report.{wait_line, crossing_text, array_name, overlap_text, trapped_text, cause_text, rollback_text, rollback_line, own_lines, report_text, summary_text};

use crate::deps::name_bytes;
use itoa::Buffer;
use nest_check::Checked;
use nest_syntax::{NoMemory, TaskName};
use progress_board::{Engine, Facts, Options, RollCause, Rollback, Sign, Wait};
use std::alloc::Global;

/// The report of a run of the program: the engine with its options, the counts of the facts, and its waits or rollbacks.
pub fn print_report(alloc: Global, facts: &Facts, checked: &Checked) -> Result<Vec<u8>, NoMemory>
    ensures { IfOk result (λ text. text.items ≡ report_text checked.now facts.now) }
{
    let mut text = print_counts(alloc, facts)?;
    add_own_lines(alloc, &mut text, facts, checked)?;
    Ok(text)
}

/// A generated run in short: what it was generated from, the counts of the facts, and the sum of the final words.
pub fn print_summary(
    alloc: Global,
    seed: u32,
    size: u32,
    facts: &Facts,
    sum: i64,
) -> Result<Vec<u8>, NoMemory>
    ensures { IfOk result (λ text. text.items ≡ summary_text seed size facts.now sum) }
{
    let mut buffer = Buffer::new();
    let mut text = Vec::new(alloc);
    add_number(&mut text, b"seed ", u64::from(seed))?;
    add_count(&mut text, b" size ", u64::from(size))?;
    let counts = print_counts(alloc, facts)?;
    text.extend_from_slice(counts.as_slice())?;
    text.extend_from_slice(b"sum ")?;
    text.extend_from_slice(buffer.format(sum).as_bytes())?;
    text.push(b'\n')?;
    Ok(text)
}

// The report without the lines of single waits and rollbacks.
fn print_counts(alloc: Global, facts: &Facts) -> Result<Vec<u8>, NoMemory>
    ensures { IfOk result (λ text. text.items ≡ counts_text facts.now) }
{
    let mut text = engine_line(alloc, facts.options)?;
    let shared = shared_counts(alloc, facts)?;
    let own = own_counts(alloc, facts)?;
    text.extend_from_slice(shared.as_slice())?;
    text.extend_from_slice(own.as_slice())?;
    Ok(text)
}

fn add_number(text: &mut Vec<u8>, what: &[u8], number: u64) -> Result<(), NoMemory>
    ensures { OnOk result (text.new.items ≡ text.old.items ++ number_text what.now number) }
{
    let mut buffer = Buffer::new();
    text.extend_from_slice(what)?;
    text.extend_from_slice(buffer.format(number).as_bytes())?;
    Ok(())
}

fn add_count(text: &mut Vec<u8>, what: &[u8], number: u64) -> Result<(), NoMemory>
    ensures { OnOk result (text.new.items ≡ text.old.items ++ count_line what.now number) }
{
    add_number(text, what, number)?;
    text.push(b'\n')?;
    Ok(())
}

fn engine_line(alloc: Global, options: Options) -> Result<Vec<u8>, NoMemory>
    ensures { IfOk result (λ text. text.items ≡ engine_line options.engine options) }
{
    match options.engine {
        Engine::Domore => domore_line(alloc, options),
        Engine::Speccross => speccross_line(alloc, options),
        Engine::Barrier => barrier_line(alloc, options),
    }
}

fn domore_line(alloc: Global, options: Options) -> Result<Vec<u8>, NoMemory>
    ensures { IfOk result (λ text. text.items ≡ engine_line Domore options) }
{
    let mut text = Vec::new(alloc);
    add_count(
        &mut text,
        b"engine domore workers ",
        u64::from(options.workers),
    )?;
    Ok(text)
}

fn speccross_line(alloc: Global, options: Options) -> Result<Vec<u8>, NoMemory>
    ensures { IfOk result (λ text. text.items ≡ speccross_line options) }
{
    let mut text = Vec::new(alloc);
    add_number(
        &mut text,
        b"engine speccross workers ",
        u64::from(options.workers),
    )?;
    text.extend_from_slice(b" sign ")?;
    text.extend_from_slice(sign_text(options.sign))?;
    add_number(&mut text, b" segment ", u64::from(options.segment))?;
    add_count(&mut text, b" distance ", u64::from(options.distance))?;
    Ok(text)
}

fn barrier_line(alloc: Global, options: Options) -> Result<Vec<u8>, NoMemory>
    ensures { IfOk result (λ text. text.items ≡ barrier_line options) }
{
    let mut text = Vec::new(alloc);
    add_number(
        &mut text,
        b"engine barrier workers ",
        u64::from(options.workers),
    )?;
    add_count(&mut text, b" segment ", u64::from(options.segment))?;
    Ok(text)
}

fn sign_text(sign: Sign) -> &'static [u8]
    ensures { result.now ≡ sign_text sign }
{
    match sign {
        Sign::Range => b"range",
        Sign::Exact => b"exact",
    }
}

fn shared_counts(alloc: Global, facts: &Facts) -> Result<Vec<u8>, NoMemory>
    ensures { IfOk result (λ text. text.items ≡ shared_counts facts.now) }
{
    let mut text = Vec::new(alloc);
    add_count(&mut text, b"invocations ", facts.invocations)?;
    add_count(&mut text, b"iterations ", facts.iterations)?;
    add_count(&mut text, b"drains ", facts.drains)?;
    Ok(text)
}

fn own_counts(alloc: Global, facts: &Facts) -> Result<Vec<u8>, NoMemory>
    ensures { IfOk result (λ text. text.items ≡ own_counts facts.now.options.engine facts.now) }
{
    match facts.options.engine {
        Engine::Domore => wait_counts(alloc, facts),
        Engine::Speccross => segment_counts(alloc, facts),
        Engine::Barrier => segment_counts(alloc, facts),
    }
}

fn wait_counts(alloc: Global, facts: &Facts) -> Result<Vec<u8>, NoMemory>
    ensures { IfOk result (λ text. text.items ≡ wait_counts facts.now) }
{
    let mut text = Vec::new(alloc);
    add_number(&mut text, b"waits ", facts.waits)?;
    add_count(&mut text, b" crossing ", facts.crossing)?;
    Ok(text)
}

fn segment_counts(alloc: Global, facts: &Facts) -> Result<Vec<u8>, NoMemory>
    ensures { IfOk result (λ text. text.items ≡ segment_counts facts.now) }
{
    let mut text = Vec::new(alloc);
    add_count(&mut text, b"segments ", facts.segments)?;
    add_count(&mut text, b"checks ", facts.checks)?;
    add_count(&mut text, b"rollbacks ", facts.rollbacks)?;
    Ok(text)
}

fn add_own_lines(
    alloc: Global,
    text: &mut Vec<u8>,
    facts: &Facts,
    checked: &Checked,
) -> Result<(), NoMemory>
    ensures { OnOk result (text.new.items ≡ text.old.items ++ own_lines checked.now facts.now.options.engine facts.now) }
{
    match facts.options.engine {
        Engine::Domore => add_waits(text, &facts.first_waits),
        Engine::Speccross => add_rollbacks(alloc, text, &facts.first_rollbacks, checked),
        Engine::Barrier => add_rollbacks(alloc, text, &facts.first_rollbacks, checked),
    }
}

fn add_waits(text: &mut Vec<u8>, waits: &[Option<Wait>]) -> Result<(), NoMemory>
    ensures { OnOk result (text.new.items ≡ text.old.items ++ flat_map wait_line waits.now) }
{
    for wait in waits {
        add_wait_line(text, wait)?;
    }
    Ok(())
}

fn add_wait_line(text: &mut Vec<u8>, wait: &Option<Wait>) -> Result<(), NoMemory>
    ensures { OnOk result (text.new.items ≡ text.old.items ++ wait_line wait.now) }
{
    match wait {
        Some(wait) => add_wait(text, wait),
        None => Ok(()),
    }
}

fn add_wait(text: &mut Vec<u8>, wait: &Wait) -> Result<(), NoMemory>
    ensures { OnOk result (text.new.items ≡ text.old.items ++ wait_line (Some wait.now)) }
{
    add_number(text, b"wait ", wait.number)?;
    add_number(text, b" on ", wait.on)?;
    text.extend_from_slice(crossing_text(wait.crossing))?;
    Ok(())
}

fn crossing_text(crossing: bool) -> &'static [u8]
    ensures { result.now ≡ crossing_text crossing }
{
    if crossing { b" crossing\n" } else { b"\n" }
}

fn add_rollbacks(
    alloc: Global,
    text: &mut Vec<u8>,
    rollbacks: &[Option<Rollback>],
    checked: &Checked,
) -> Result<(), NoMemory>
    ensures { OnOk result (text.new.items ≡ text.old.items ++ flat_map (rollback_line checked.now) rollbacks.now) }
{
    let arrays = checked.array_names(alloc)?;
    'lines: for rollback in rollbacks {
        add_rollback_line(alloc, text, rollback, arrays.as_slice(), checked)?;
    }
    Ok(())
}

fn add_rollback_line(
    alloc: Global,
    text: &mut Vec<u8>,
    rollback: &Option<Rollback>,
    arrays: &[u32],
    checked: &Checked,
) -> Result<(), NoMemory>
    requires { arrays.now ≡ array_names (arrays_of checked.now.decls) }
    ensures { OnOk result (text.new.items ≡ text.old.items ++ rollback_line checked.now rollback.now) }
{
    match rollback {
        Some(rollback) => {
            let line = rollback_text(alloc, rollback, arrays, checked)?;
            text.extend_from_slice(line.as_slice())?;
            Ok(())
        }
        None => Ok(()),
    }
}

fn rollback_text(
    alloc: Global,
    rollback: &Rollback,
    arrays: &[u32],
    checked: &Checked,
) -> Result<Vec<u8>, NoMemory>
    requires { arrays.now ≡ array_names (arrays_of checked.now.decls) }
    ensures { IfOk result (λ text. text.items ≡ rollback_text checked.now rollback.now) }
{
    let mut text = Vec::new(alloc);
    add_number(&mut text, b"rollback segment ", rollback.segment)?;
    add_cause(&mut text, &rollback.cause, arrays, checked)?;
    Ok(text)
}

fn add_cause(
    text: &mut Vec<u8>,
    cause: &RollCause,
    arrays: &[u32],
    checked: &Checked,
) -> Result<(), NoMemory>
    requires { arrays.now ≡ array_names (arrays_of checked.now.decls) }
    ensures { OnOk result (text.new.items ≡ text.old.items ++ cause_text checked.now cause.now) }
{
    match cause {
        RollCause::Overlap { early, late, array } => {
            let name = name_of_array(arrays, *array, checked);
            add_overlap(text, *early, *late, name)
        }
        RollCause::Trap { task } => add_trapped(text, *task),
    }
}

fn add_trapped(text: &mut Vec<u8>, task: TaskName) -> Result<(), NoMemory>
    ensures { OnOk result (text.new.items ≡ text.old.items ++ trapped_text task) }
{
    add_number(text, b" trap epoch ", u64::from(task.epoch))?;
    add_count(text, b" worker ", u64::from(task.worker))?;
    Ok(())
}

// The bytes of an array's name. An array that isn't there has none.
fn name_of_array<'a>(arrays: &[u32], array: u32, checked: &'a Checked) -> &'a [u8]
    requires { arrays.now ≡ array_names (arrays_of checked.now.decls) }
    ensures { result.now ≡ array_name checked.now array }
{
    let name = match arrays.get(array as usize) {
        Some(name) => *name,
        None => 0,
    };
    name_bytes(checked.program().names.as_slice(), name)
}

fn add_overlap(
    text: &mut Vec<u8>,
    early: TaskName,
    late: TaskName,
    array: &[u8],
) -> Result<(), NoMemory>
    ensures { OnOk result (text.new.items ≡ text.old.items ++ overlap_text early late array.now) }
{
    text.extend_from_slice(b" overlap ")?;
    text.extend_from_slice(array)?;
    add_number(text, b" epochs ", u64::from(early.epoch))?;
    add_number(text, b" ", u64::from(late.epoch))?;
    add_number(text, b" workers ", u64::from(early.worker))?;
    add_count(text, b" ", u64::from(late.worker))?;
    Ok(())
}
