ghost use Rattle.std.specs.Prelude.{◌≡◌, IfOk, take};
ghost use Rattle.nest_syntax.specs.Lowest.{lower_of};
ghost use Rattle.nest_check.specs.Declarations.{first_of_each, lines_of};
ghost use Rattle.nest_check.specs.Entries.{scheduler_scalars};
ghost use Rattle.nest_check.specs.Rules.{first_behind};
ghost use Rattle.nest_check.specs.Noted.{first_broken};
ghost use Rattle.nest_check.specs.Broken.{IsBroken};

use crate::arrays::{lowest_beyond_64, lowest_wrong_length};
use crate::changed_bounds::lowest_changed_bound;
use crate::first_names::FirstNames;
use crate::items::{MOST_SCALARS, sizes_of};
use crate::parts::part_breaches;
use data_local::lowest_data_bound;
use nest_scope::scope_breaches;
use nest_syntax::{Line, Lowest, NoMemory, Program};
use std::alloc::Global;

/// The lowest rule that a program breaks with the lowest line that breaks it, and its scheduler scalars up to the 33rd.
#[derive(Debug, Drop)]
pub(crate) struct Judgement {
    pub broken: Option<(u8, Line)>,
    pub scalars: FirstNames,
}

pub(crate) fn judge(alloc: Global, program: &Program) -> Result<Judgement, NoMemory>
    ensures broken { IfOk result (λ j. IsBroken program.now j.broken) }
    ensures scalars { IfOk result (λ j. j.scalars ≡ take 33 (first_of_each (scheduler_scalars program.now))) }
{
    let names = scope_breaches(alloc, program)?;
    let changed_bound = lowest_changed_bound(alloc, program)?;
    let data_bound = lowest_data_bound(alloc, program)?;
    let parts = part_breaches(program);
    let sizes = sizes_of(alloc, program)?;
    let rules = [
        (1u8, lowest_beyond_64(program)),
        (2u8, names.redeclared),
        (3u8, names.unknown),
        (4u8, lowest_wrong_length(program)),
        (5u8, names.const_written),
        (6u8, parts.steps.line()),
        (7u8, parts.levels.line()),
        (8u8, names.loop_variable_assigned),
        (9u8, names.scheduler_scalar_assigned),
        (10u8, changed_bound),
        (11u8, data_bound),
        (12u8, sizes.regions.line()),
        (13u8, sizes.bodies.line()),
        (
            14u8,
            lowest_deep(parts.depths, sizes.tally.names.as_slice()),
        ),
    ];
    Ok(Judgement {
        broken: first_broken(&rules),
        scalars: sizes.tally.names,
    })
}

// The lowest line of a deep expression, or of the 33rd scheduler scalar.
fn lowest_deep(depths: Lowest, scalars: &[(u32, Line)]) -> Option<Line>
    ensures { result ≡ lower_of depths (first_behind 32 (lines_of scalars.now)) }
{
    let mut found = depths;
    note_scalar(scalars, &mut found);
    found.line()
}

// Notes the 33rd scheduler scalar.
fn note_scalar(scalars: &[(u32, Line)], found: &mut Lowest)
    ensures { found.new ≡ lower_of found.old (first_behind 32 (lines_of scalars.now)) }
{
    if MOST_SCALARS < scalars.len() {
        found.note(scalars[MOST_SCALARS].1);
    }
}

// The first rule of a list that is broken.
fn first_broken(rules: &[(u8, Option<Line>)]) -> Option<(u8, Line)>
    ensures { result ≡ first_broken rules.now }
{
    for rule in rules {
        if let Some(line) = rule.1 {
            return Some((rule.0, line));
        }
    }
    None
}
