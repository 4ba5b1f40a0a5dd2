//! Cuts texts at separators.

ghost use Rattle.std.specs.Prelude.{◌≡◌, ◌==◌, ◌<◌, [], ◌∷◌, length, MatchOption};
ghost use Rattle.std.specs.List.{slice_split};
ghost use Rattle.a64_tokens.specs.Splitting as Splitting;
ghost use Rattle.a64_tokens.specs.Splitting.{first_line, line_tokens, lines_behind, IsCut};
ghost use Rattle.a64_tokens.specs.Fronts.{first_set, IsPlainTo, EndsAt};

use std::simd::prelude::*;

/// How many bytes are looked at together.
const LANES: usize = 16;

/// A token, and what comes after it.
#[derive(Clone, Copy)]
pub struct CutToken<'t> {
    /// The token.
    pub token: &'t [u8],
    /// The text of the next token and all behind it, where there is one.
    pub more: Option<&'t [u8]>,
    /// The lines behind the token's line, where the token is the last of its line and there are any.
    pub lines: Option<&'t [u8]>,
}

/// Whether the first line means nothing: it is empty, or begins with a semicolon.
#[inline(always)]
pub fn is_blank(text: &[u8]) -> bool
    ensures { result ≡ Splitting.is_blank (first_line text.now) }
{
    match text {
        [] => true,
        [first, ..] => *first == b'\n' || *first == b';',
    }
}

/// The part before the first separator, and what comes after it, where there is one.
pub fn cut(text: &[u8], separator: u8) -> (&[u8], Option<&[u8]>)
    ensures { MatchOption result.1
        (slice_split (λ b. b == separator) text.now ≡ result.0.now ∷ [])
        (λ rest. (slice_split (λ b. b == separator) text.now
        ≡ result.0.now ∷ slice_split (λ b. b == separator) rest.now)
        × (length rest.now < length text.now)) }
{
    for (i, byte) in text.iter().enumerate() {
        if *byte == separator {
            return (&text[..i], Some(&text[i + 1..]));
        }
    }
    (text, None)
}

/// The first place of those looked at together whose bit is set, or their number.
#[inline(always)]
fn first_set(mask: u64) -> usize
    ensures { result ≡ first_set mask }
{
    if mask == 0 {
        LANES
    } else {
        mask.trailing_zeros() as usize
    }
}

/// How many of the first bytes, looked at together, stand before one that is no more than a space.
/// A text that is too short for that has none.
#[inline(always)]
fn plain_front(text: &[u8]) -> usize
    ensures { IsPlainTo text.now result }
{
    if text.len() < LANES {
        return 0;
    }
    let bytes = u8x16::from_slice(text);
    first_set(bytes.simd_le(u8x16::splat(b' ')).to_bitmask())
}

/// Where the first token of the first line ends, byte by byte.
#[inline(never)]
fn token_end(text: &[u8]) -> usize
    ensures { EndsAt text.now result }
{
    for (i, byte) in text.iter().enumerate() {
        if *byte == b' ' || *byte == b'\n' {
            return i;
        }
    }
    text.len()
}

/// The first token of the first line, which ends here.
#[inline(always)]
fn cut_at(text: &[u8], end: usize) -> CutToken<'_>
    requires { EndsAt text.now end }
    ensures { IsCut line_tokens lines_behind text.now result.token.now result.more result.lines }
{
    if end == text.len() {
        CutToken {
            token: text,
            more: None,
            lines: None,
        }
    } else if text[end] == b' ' {
        CutToken {
            token: &text[..end],
            more: Some(&text[end + 1..]),
            lines: None,
        }
    } else {
        CutToken {
            token: &text[..end],
            more: None,
            lines: Some(&text[end + 1..]),
        }
    }
}

/// The first token of the first line. It ends at a space or a line feed.
#[inline(always)]
pub fn cut_token(text: &[u8]) -> CutToken<'_>
    ensures { IsCut line_tokens lines_behind text.now result.token.now result.more result.lines }
{
    let front = plain_front(text);
    match text.get(front) {
        Some(b' ') => CutToken {
            token: &text[..front],
            more: Some(&text[front + 1..]),
            lines: None,
        },
        Some(b'\n') => CutToken {
            token: &text[..front],
            more: None,
            lines: Some(&text[front + 1..]),
        },
        _ => cut_at(text, token_end(text)),
    }
}
