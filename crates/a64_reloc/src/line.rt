//! Reads the line of a relocation.

ghost use Rattle.std.specs.Fmt.{decimal, signed_decimal};
ghost use Rattle.a64_tokens.specs.Reads.{Reads, Always, IsI64, IsU32};
ghost use Rattle.a64_reloc.specs.Halves.{AreBoth, pair_text};
ghost use Rattle.a64_reloc.specs.Relocs.{IsSymbol, IsReloc, reloc_line, reloc_text, symbol_text};

use crate::halves::halves;
use crate::kind::read_kind;
use a64_base::{ExternalName, Reloc};
use a64_tokens::decimal::read_u32;
use a64_tokens::offset::read_i64;

/// A symbol, and the number that is added to its place.
type Goal = (ExternalName, i64);

/// The symbol whose name the token is.
fn read_symbol(token: &[u8]) -> Option<ExternalName>
    ensures { Reads IsSymbol symbol_text token.now result }
{
    let Some(number) = token.strip_prefix(b"userextname") else {
        return None;
    };
    let Some(number) = read_u32(number) else {
        return None;
    };
    Some(ExternalName(number))
}

/// The symbol and the number behind it.
fn read_goal(text: &[u8]) -> Option<Goal>
    ensures { Reads (AreBoth IsSymbol IsI64) (pair_text symbol_text signed_decimal)
        text.now result }
{
    let Some((first, second)) = halves(text) else {
        return None;
    };
    let Some(name) = read_symbol(first) else {
        return None;
    };
    let Some(addend) = read_i64(second) else {
        return None;
    };
    Some((name, addend))
}

/// The kind, and the symbol and the number behind it.
fn read_kind_and_goal(text: &[u8]) -> Option<(Reloc, Goal)>
    ensures { Reads (AreBoth Always (AreBoth IsSymbol IsI64))
        (pair_text reloc_text (pair_text symbol_text signed_decimal)) text.now result }
{
    let Some((first, second)) = halves(text) else {
        return None;
    };
    let Some(kind) = read_kind(first) else {
        return None;
    };
    let Some(goal) = read_goal(second) else {
        return None;
    };
    Some((kind, goal))
}

/// The relocation whose line this is: its place, in bytes, its kind, its symbol, and the number that
/// is added to that symbol's place.
pub fn read_reloc(line: &[u8]) -> Option<(u32, Reloc, ExternalName, i64)>
    ensures { Reads IsReloc reloc_line line.now result }
{
    let Some(fields) = line.strip_prefix(b"reloc ") else {
        return None;
    };
    let Some((first, second)) = halves(fields) else {
        return None;
    };
    let Some(place) = read_u32(first) else {
        return None;
    };
    let Some((kind, (name, addend))) = read_kind_and_goal(second) else {
        return None;
    };
    Some((place, kind, name, addend))
}
