//! Reads lists.

ghost use Rattle.std.specs.Prelude.{◌≡◌, ◌<◌, ◌∷◌, ℕ, List, length, map, codes, IfOk};
ghost use Rattle.std.specs.List.{AllByRecursion, join_with_byte};
ghost use Rattle.a64_tokens.specs.Lists.{list_text};
ghost use Rattle.a64_tokens.specs.Reads.{Reads};
ghost use Rattle.a64_tokens.specs.Splitting.{comma_tokens, of_text};

use a64_list::ListVec;
use a64_tokens::split::cut;
use std::alloc::{AllocError, Global};

/// What stands in lists, with commas between.
pub trait Listed: Copy + Drop {
    /// The text of one.
    ghost text: { Self → List ℕ };

    /// Which have a text.
    ghost fits: { Self → Type 0 };

    /// The texts in a list.
    ghost tokens: { List ℕ → List (List ℕ) };

    /// The first of them, and what comes after the comma behind it.
    fn cut(list: &[u8]) -> (&[u8], Option<&[u8]>)
        ensures { tokens list.now ≡ result.0.now ∷ of_text tokens result.1 };

    /// The one that the token is.
    fn read(token: &[u8]) -> Option<Self>
        ensures { Reads fits text token.now result };

    /// What was joined are these texts.
    ghost apart: { (x : Self) (xs : List Self) → AllByRecursion fits (x ∷ xs)
        → tokens (join_with_byte 44 (map text (x ∷ xs))) ≡ map text (x ∷ xs) };

    /// Joined, they are the list.
    ghost joined: { (list : List ℕ) → join_with_byte 44 (tokens list) ≡ list };

    /// There is one.
    ghost some_token: { (list : List ℕ) → 0 < length (tokens list) };

    /// No text is a dash.
    ghost no_dash: { (x : Self) → fits x → text x ≡ codes "-" → ⊥ };
}

/// The text before the first comma, and what comes after it.
#[inline(always)]
pub fn cut_comma(text: &[u8]) -> (&[u8], Option<&[u8]>)
    ensures { comma_tokens text.now ≡ result.0.now ∷ of_text comma_tokens result.1 }
{
    cut(text, b',')
}

/// The list that the token is: `-` where it has nothing.
///
/// # Errors
///
/// Want of memory.
pub fn read_list<T: Listed>(alloc: Global, token: &[u8]) -> Result<Option<ListVec<T>>, AllocError>
    ensures { IfOk result (Reads (AllByRecursion T.fits) (list_text T.text) token.now) }
{
    let mut items = ListVec::new(alloc);
    if token == b"-".as_slice() {
        return Ok(Some(items));
    }
    let mut rest = Some(token);
    while let Some(text) = rest {
        let (first, more) = T::cut(text);
        let Some(item) = T::read(first) else {
            return Ok(None);
        };
        items.push(item)?;
        rest = more;
    }
    Ok(Some(items))
}
