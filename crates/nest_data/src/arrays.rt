//! The arrays of a program, by their names.
ghost use Rattle.std.specs.Prelude.{◌≡◌, ◌<◌, ◌^◌, [], length, IfSome, slice_index_or};
ghost use Rattle.std.specs.List.{position};
ghost use Rattle.std.specs.Str.{bytes_eq};
ghost use Rattle.nest_data.specs.Data.{array_named};

use nest_syntax::Name;

/// The bytes of a name. A name that isn't there has none.
pub(crate) fn name_bytes(names: &[Name], name: u32) -> &[u8]
    ensures { result.now ≡ slice_index_or names.now name [] }
{
    match names.get(name as usize) {
        Some(bytes) => bytes.as_slice(),
        None => &[],
    }
}

fn is_named(names: &[Name], name: u32, word: &[u8]) -> bool
    ensures { result ≡ bytes_eq (slice_index_or names.now name []) word.now }
{
    name_bytes(names, name) == word
}

fn first_named(names: &[Name], arrays: &[u32], word: &[u8]) -> Option<usize>
    ensures { result ≡ array_named names.now arrays.now word.now }
{
    arrays.iter().position(|name| is_named(names, *name, word))
}

/// The number of the first array whose name is this word.
pub(crate) fn array_named(names: &[Name], arrays: &[u32], word: &[u8]) -> Option<u32>
    requires { length arrays.now < 2 ^ 32 }
    ensures number { result ≡ array_named names.now arrays.now word.now }
    ensures there { IfSome result (λ n. n < length arrays.now) }
{
    match first_named(names, arrays, word) {
        Some(number) => Some(number as u32),
        None => None,
    }
}
