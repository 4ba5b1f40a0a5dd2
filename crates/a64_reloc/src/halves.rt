//! Cuts texts at their first space.

ghost use Rattle.std.specs.Prelude.{option_map};
ghost use Rattle.a64_tokens.specs.Reads.{Reads};
ghost use Rattle.a64_reloc.specs.Halves.{IsPlainFirst, halves_text, texts_of};

use a64_tokens::split::cut;

/// What stands before the first space of a text, and what behind it. None: it has no space.
pub fn halves(text: &[u8]) -> Option<(&[u8], &[u8])>
    ensures { Reads IsPlainFirst halves_text text.now (option_map texts_of result) }
{
    let (first, behind) = cut(text, b' ');
    match behind {
        Some(second) => Some((first, second)),
        None => None,
    }
}
