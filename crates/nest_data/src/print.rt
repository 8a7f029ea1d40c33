ghost use Rattle.std.specs.Prelude.{◌≡◌, ◌+◌, ◌++◌, ◌^◌, ◌<◌, length, IfOk, OnOk};
ghost use Rattle.nest_syntax.specs.Arrays.{arrays_of};
ghost use Rattle.word_store.specs.Memory.{HasLayout};
ghost use Rattle.nest_data.specs.Text.{array_line, array_lines};

use crate::arrays::name_bytes;
use itoa::Buffer;
use nest_check::Checked;
use nest_syntax::{Decl, Name, NoMemory};
use std::alloc::Global;
use word_store::Words;

/// The lines of the arrays that aren't `const`, in order of declaration: the name and the values, separated by single
/// spaces. The words have the sizes of the declared arrays.
pub fn print_words(alloc: Global, words: &Words, checked: &Checked) -> Result<Vec<u8>, NoMemory>
    requires { HasLayout words.now checked.now.decls }
    ensures { IfOk result (λ text. text.items ≡ array_lines checked.now.names words.now 0 checked.now.decls) }
{
    let program = checked.program();
    print_lines(
        alloc,
        words,
        program.names.as_slice(),
        program.decls.as_slice(),
    )
}

// The same of declarations. A name that isn't there is printed as nothing.
fn print_lines(
    alloc: Global,
    words: &Words,
    names: &[Name],
    decls: &[Decl],
) -> Result<Vec<u8>, NoMemory>
    requires sizes { HasLayout words.now decls.now }
    requires few { length (arrays_of decls.now) < 2 ^ 32 }
    ensures { IfOk result (λ text. text.items ≡ array_lines names.now words.now 0 decls.now) }
{
    let mut text = Vec::new(alloc);
    let mut number = 0u32;
    for decl in decls {
        if let Decl::Array { name, fixed, .. } = decl {
            if !fixed {
                add_line(&mut text, name_bytes(names, *name), words.array(number))?;
            }
            number += 1;
        }
    }
    Ok(text)
}

/// Appends the line of an array: its name and its values, separated by single spaces.
pub fn add_line(text: &mut Vec<u8>, name: &[u8], values: &[i64]) -> Result<(), NoMemory>
    ensures { OnOk result (text.new.items ≡ text.old.items ++ array_line name.now values.now) }
{
    let mut number = Buffer::new();
    text.extend_from_slice(name)?;
    for value in values {
        text.push(b' ')?;
        text.extend_from_slice(number.format(*value).as_bytes())?;
    }
    text.push(b'\n')?;
    Ok(())
}
