ghost use Rattle.std.specs.Prelude.{◌≡◌, ◌++◌};
ghost use Rattle.nest_syntax.specs.Lowest.{lowest, lower_of};
ghost use Rattle.nest_check.specs.Rules.{first_behind, array_lines, region_lines, lengths_outside, sum_passes, beyond_64, wrong_lengths};

use nest_syntax::{Decl, Line, Loop, Lowest, Program};

const MOST_ARRAYS: u32 = 64;

const MOST_REGIONS: usize = 64;

const MOST_WORDS: u64 = 1_048_576;

/// The lowest of the lines of the 65th array and the 65th region.
pub(crate) fn lowest_beyond_64(program: &Program) -> Option<Line>
    ensures { result ≡ lowest (beyond_64 program.now) }
{
    let mut found = Lowest::new();
    note_array(program.decls.as_slice(), &mut found);
    note_region(program.regions.as_slice(), &mut found);
    found.line()
}

// Notes the declaration of the 65th array.
fn note_array(decls: &[Decl], found: &mut Lowest)
    ensures { found.new ≡ lower_of found.old (first_behind 64 (array_lines decls.now)) }
{
    let mut left = MOST_ARRAYS;
    for decl in decls {
        match decl {
            Decl::Array { line, .. } => {
                if left == 0 {
                    found.note(*line);
                    return;
                }
                left -= 1;
            }
            Decl::Scalar { .. } => {}
        }
    }
}

// Notes the 65th region.
fn note_region(regions: &[Loop], found: &mut Lowest)
    ensures { found.new ≡ lower_of found.old (first_behind 64 (region_lines regions.now)) }
{
    if MOST_REGIONS < regions.len() {
        found.note(regions[MOST_REGIONS].line);
    }
}

/// The lowest line of a declaration whose length is outside, or with which the sum of lengths passes the bound.
pub(crate) fn lowest_wrong_length(program: &Program) -> Option<Line>
    ensures { result ≡ lowest (wrong_lengths program.now) }
{
    let mut found = Lowest::new();
    note_lengths(program.decls.as_slice(), &mut found);
    note_sum(program.decls.as_slice(), &mut found);
    found.line()
}

// Notes the declarations whose length is outside 1 to 1,048,576.
fn note_lengths(decls: &[Decl], found: &mut Lowest)
    ensures { found.new ≡ lower_of found.old (lengths_outside decls.now) }
{
    for decl in decls {
        match decl {
            Decl::Array { line, length, .. } => {
                if *length == 0 || MOST_WORDS < *length {
                    found.note(*line);
                }
            }
            Decl::Scalar { .. } => {}
        }
    }
}

// Notes the first declaration with which the sum of lengths passes 1,048,576.
fn note_sum(decls: &[Decl], found: &mut Lowest)
    ensures { found.new ≡ lower_of found.old (sum_passes 0 decls.now) }
{
    let mut left = MOST_WORDS;
    for decl in decls {
        match decl {
            Decl::Array { line, length, .. } => {
                if left < *length {
                    found.note(*line);
                    return;
                }
                left -= *length;
            }
            Decl::Scalar { .. } => {}
        }
    }
}
