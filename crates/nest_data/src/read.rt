ghost use Rattle.std.specs.Prelude.{◌≡◌, ◌≤◌, ℕ, List, Ok, length, IfOk};
ghost use Rattle.nest_syntax.specs.Arrays.{Array, arrays_of};
ghost use Rattle.word_store.specs.Memory.{Memory, HasLayout};
ghost use Rattle.nest_data.specs.Data.{data_of, Tells};
ghost use Rattle.nest_data.specs.Lines.{lines_of};
ghost use Rattle.nest_data.specs.OfLines.{AreOfLines};
ghost use Rattle.nest_data.specs.Faults.{Judges};

use crate::progress::Progress;
use crate::refused::DataRefused;
use nest_check::Checked;
use std::alloc::Global;
use word_store::Words;

/// The opening words of a program's arrays, as data lines give them; the first line has the number `first_line`. An
/// array without a line is all zeros.
///
/// `Line` comes only where a line is faulty, with the first such line and the first of its faults. All memory is taken
/// before the first line is read.
pub fn read_data(
    alloc: Global,
    bytes: &[u8],
    first_line: u32,
    checked: &Checked,
) -> Result<Words, DataRefused>
    requires small { length bytes.now ≤ 33554432 }
    requires line { first_line ≤ 33554433 }
    ensures told { Tells (data_of checked.now.names (arrays_of checked.now.decls) first_line bytes.now) result }
    ensures sizes { IfOk result (λ words. HasLayout words checked.now.decls) }
{
    let program = checked.program();
    let arrays = checked.array_names(alloc)?;
    let progress = Progress::open(alloc, checked.lengths())?;
    progress.read_lines(
        program.names.as_slice(),
        arrays.as_slice(),
        bytes,
        first_line,
    )
}

/// Where no line is faulty, each array has the values of its line, and zeros where it has none.
pub fn words_are_of_lines()
    ensures { (names : List (List ℕ)) (arrays : List Array) (line : ℕ) (bytes : List ℕ) (memory : Memory)
        → data_of names arrays line bytes ≡ Ok memory → AreOfLines names arrays (lines_of bytes) memory }
{}

/// Where `data_of` gives words, no line is faulty. Otherwise it tells a faulty line and the first fault of that line,
/// and no earlier line is faulty.
pub fn faults_are_of_lines()
    ensures { (names : List (List ℕ)) (arrays : List Array) (line : ℕ) (bytes : List ℕ) → Judges names arrays line (lines_of bytes) (data_of names arrays line bytes) }
{}
