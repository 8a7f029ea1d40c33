//! Names and their numbers.
ghost use Rattle.std.specs.Prelude.{◌≡◌, ◌<◌, ◌^◌, ◌-◌, ◌+◌, length, map, IfOk, OnOk};
ghost use Rattle.std.specs.List.{position_or_len};
ghost use Rattle.std.specs.Str.{bytes_eq};
ghost use Rattle.nest_lex.specs.Text.{with_name, names_with, kind_of as kind_with};

use crate::piece::Piece;
use crate::token::Kind;
use indexmap::IndexSet;
use nest_syntax::Name;
use sqlite_items::Items;
use std::alloc::{AllocError, Global};

/// The number of a name: its place among those that were seen, in the order of their first appearance.
fn number_of_name<'a>(
    alloc: Global,
    seen: &mut IndexSet<&'a [u8]>,
    names: &mut Items<Name>,
    name: &'a [u8],
) -> Result<u32, AllocError>
    requires seen { names.old ≡ map (λ k. k.now) seen.old.keys }
    requires few { length names.old + 1 < 2 ^ 32 }
    ensures seen { OnOk result (names.new ≡ map (λ k. k.now) seen.new.keys) }
    ensures names { OnOk result (names.new ≡ with_name names.old name.now) }
    ensures number { IfOk result (λ n. n ≡ position_or_len (bytes_eq name.now) names.old) }
{
    let (number, _) = seen.insert_full(name)?;
    if number == names.len() {
        names.push(Items::from_slice(alloc, name)?)?;
    }
    Ok(number as u32)
}

/// The kind of a token with these bytes. A name that was not seen before goes last among the names.
#[tactic(auto, using(crate::proofs::Numbering::place_with_name))]
pub fn kind_of<'a>(
    alloc: Global,
    seen: &mut IndexSet<&'a [u8]>,
    names: &mut Items<Name>,
    bytes: &'a [u8],
    piece: Piece,
) -> Result<Kind, AllocError>
    requires seen { names.old ≡ map (λ k. k.now) seen.old.keys }
    requires few { length names.old + 1 < 2 ^ 32 }
    ensures seen { OnOk result (names.new ≡ map (λ k. k.now) seen.new.keys) }
    ensures names { OnOk result (names.new ≡ names_with names.old bytes.now piece) }
    ensures kind { IfOk result (λ k. k ≡ kind_with (names_with names.old bytes.now piece) bytes.now piece) }
{
    match piece {
        Piece::Name => Ok(Kind::Name(number_of_name(alloc, seen, names, bytes)?)),
        Piece::Number(n) => Ok(Kind::Number(n)),
        Piece::Keyword(keyword) => Ok(Kind::Keyword(keyword)),
        Piece::Mark(mark) => Ok(Kind::Mark(mark)),
    }
}
