//! Texts with escapes.

use crate::problem::Problem;

/// What the next byte of a text means.
#[derive(Clone, Copy)]
enum State {
    /// Itself, or that an escape begins.
    Plain,
    /// Which escape it is.
    Escape,
    /// The first digit of a byte in hexadecimal.
    High,
    /// The second digit, behind a first one.
    Low(u8),
}

/// The byte that a letter behind a backslash stands for.
fn escaped(letter: u8) -> Option<u8> {
    match letter {
        b'\\' => Some(b'\\'),
        b'n' => Some(b'\n'),
        b'r' => Some(b'\r'),
        b't' => Some(b'\t'),
        _ => None,
    }
}

/// The number of a hexadecimal digit.
fn digit(letter: u8) -> Option<u8> {
    match letter {
        b'0'..=b'9' => Some(letter - b'0'),
        b'a'..=b'f' => Some(letter - b'a' + 10),
        _ => None,
    }
}

/// What the byte behind the next means, and the byte that the text has here, where there is one.
fn step(state: State, byte: u8) -> Option<(State, Option<u8>)> {
    match (state, byte) {
        (State::Plain, b'\\') => Some((State::Escape, None)),
        (State::Plain, _) => Some((State::Plain, Some(byte))),
        (State::Escape, b'x') => Some((State::High, None)),
        (State::Escape, _) => Some((State::Plain, Some(escaped(byte)?))),
        (State::High, _) => Some((State::Low(digit(byte)?), None)),
        (State::Low(high), _) => Some((State::Plain, Some(high << 4 | digit(byte)?))),
    }
}

/// Appends what a text stands for: `\n`, `\r`, `\t`, `\\` and `\x` with two digits in lower case are one
/// byte each.
pub fn append_text(bytes: &mut Vec<u8>, text: &str) -> Result<(), Problem> {
    let mut state = State::Plain;
    for byte in text.bytes() {
        let Some((next, meant)) = step(state, byte) else {
            return Err(Problem::Unreadable("an escape that is none"));
        };
        state = next;
        if let Some(meant) = meant {
            bytes.push(meant)?;
        }
    }
    match state {
        State::Plain => Ok(()),
        _ => Err(Problem::Unreadable("an escape that does not end")),
    }
}
