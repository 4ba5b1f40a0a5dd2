//! The words of a command.

ghost use Rattle.std.specs.Prelude.{◌<◌, ◌≤◌, ◌^◌, IfSome};
ghost use Rattle.a64_stream.specs.Streams.{IsSmall};

/// The kind of a stream.
#[derive(Clone, Copy, Debug, PartialEq, Eq)]
pub enum Kind {
    /// Groups of eight items like those of a compiler.
    Mixed,
    /// Pairs of a jump and its label.
    Branches,
}

/// What the program is to do.
#[derive(Clone, Copy, Debug, PartialEq, Eq)]
pub enum Command {
    /// Makes a stream of items.
    Items {
        /// The kind of the stream.
        kind: Kind,
        /// How many groups or pairs it has: below 2^28.
        count: u32,
        /// Whether the items are assembled.
        assembles: bool,
    },
    /// Puts so many uses of labels into a buffer: below 2^25.
    Uses(u32),
}

/// The number of groups of the mixed stream that is made without words.
const SMALL: u32 = 8;

/// The kind with this name.
fn kind_of(word: &str) -> Option<Kind> {
    match word {
        "mixed" => Some(Kind::Mixed),
        "branches" => Some(Kind::Branches),
        _ => None,
    }
}

/// The number that a word is, where it is below a limit.
fn count_of(word: &str, limit: u32) -> Option<u32>
    ensures { IfSome result (λ count. count < limit) }
{
    match word.parse::<u32>() {
        Ok(count) if count < limit => Some(count),
        _ => None,
    }
}

/// The command of a kind of stream and a number.
fn stream_command(kind: &str, count: &str, assembles: bool) -> Option<Command>
    ensures { IfSome result IsSmall }
{
    Some(Command::Items {
        kind: kind_of(kind)?,
        count: count_of(count, 1 << 28)?,
        assembles,
    })
}

/// The command of a number of uses.
fn uses_command(count: &str) -> Option<Command>
    ensures { IfSome result IsSmall }
{
    Some(Command::Uses(count_of(count, 1 << 25)?))
}

/// The command that the words are: none of them, or a kind of stream and a number, perhaps behind
/// the word `make`, or the word `uses` and a number.
pub fn command_of(words: &[String]) -> Option<Command>
    ensures { IfSome result IsSmall }
{
    match words {
        [] => Some(Command::Items {
            kind: Kind::Mixed,
            count: SMALL,
            assembles: true,
        }),
        [uses, count] if uses.as_str() == "uses" => uses_command(count.as_str()),
        [kind, count] => stream_command(kind.as_str(), count.as_str(), true),
        [make, kind, count] if make.as_str() == "make" => {
            stream_command(kind.as_str(), count.as_str(), false)
        }
        _ => None,
    }
}
