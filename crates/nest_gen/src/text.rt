ghost use Rattle.std.specs.Prelude.{◌≡◌, ◌≤◌, ◌++◌, length, IfOk, OnOk};
ghost use Rattle.nest_gen.specs.Generated.{sized, nest_text, generated};

use crate::draws::Draws;
use itoa::Buffer;
use nest_data::add_line;
use nest_syntax::NoMemory;
use std::alloc::Global;

/// The input that a seed and a size generate: four turns that add along an index array of that size and mix two arrays.
/// The words of all three arrays are drawn.
pub fn generate(alloc: Global, seed: u32, size: u32) -> Result<Vec<u8>, NoMemory>
    requires seed { seed ≤ 2147483647 }
    requires some { 1 ≤ size }
    requires few { size ≤ 262144 }
    ensures text { IfOk result (λ text. text.items ≡ generated seed size) }
    ensures few { IfOk result (λ text. length text.items ≤ 33554432) }
{
    let mut draws = Draws::from_seed(seed);
    let places = draws.take(alloc, size, size)?;
    let first = draws.take(alloc, size, 100)?;
    let second = draws.take(alloc, size, 100)?;
    let mut text = nest_text(alloc, size)?;
    text.extend_from_slice(b"data\n")?;
    add_line(&mut text, b"a", first.as_slice())?;
    add_line(&mut text, b"b", second.as_slice())?;
    add_line(&mut text, b"ix", places.as_slice())?;
    Ok(text)
}

fn add_sized(text: &mut Vec<u8>, before: &[u8], size: u32, behind: &[u8]) -> Result<(), NoMemory>
    ensures { OnOk result (text.new.items ≡ text.old.items ++ sized before.now size behind.now) }
{
    let mut number = Buffer::new();
    text.extend_from_slice(before)?;
    text.extend_from_slice(number.format(size).as_bytes())?;
    text.extend_from_slice(behind)?;
    text.push(b'\n')?;
    Ok(())
}

fn nest_text(alloc: Global, size: u32) -> Result<Vec<u8>, NoMemory>
    ensures { IfOk result (λ text. text.items ≡ nest_text size) }
{
    let mut text = Vec::new(alloc);
    add_sized(&mut text, b"long a[", size, b"];")?;
    add_sized(&mut text, b"long b[", size, b"];")?;
    add_sized(&mut text, b"const long ix[", size, b"];")?;
    text.extend_from_slice(b"for (long t = 0; t < 4; t++) {\n")?;
    add_sized(&mut text, b"  for (long i = 0; i < ", size, b"; i++) {")?;
    text.extend_from_slice(b"    a[ix[i]] += b[i] + t;\n")?;
    text.extend_from_slice(b"  }\n")?;
    add_sized(&mut text, b"  for (long i = 0; i < ", size, b"; i++) {")?;
    text.extend_from_slice(b"    b[i] = b[i] ^ a[i];\n")?;
    text.extend_from_slice(b"  }\n")?;
    text.extend_from_slice(b"}\n")?;
    Ok(text)
}
