//! The commands, and their words.

ghost use Rattle.std.specs.Prelude.{◌≡◌, ◌↔◌, ◌∷◌, Some, IsTrue, codes, map};
ghost use Rattle.std.specs.Fmt.{decimal};
ghost use Rattle.std.specs.String.{string_bytes};
ghost use Rattle.a64_tokens.specs.Reads.{Reads, Always};
ghost use Rattle.a64_run.specs.Commands.{IsCount, alone_name, force_of, force_words, works_on};
ghost use Rattle.a64_run.specs.Stages.{ReadsCommand};

use a64_buffer::ForceVeneers;

/// The most turns that `gen` makes.
const MOST_TURNS: u32 = 100_000;

/// What the program is to do.
#[derive(Clone, Copy, Debug)]
pub enum Command {
    /// Assembles a file of items and reports the code.
    Asm(ForceVeneers),
    /// Makes a file of its own, assembles it, and sums the code up.
    Gen {
        /// How many turns of items there are, from 1 to 100,000.
        count: u32,
        /// Whether islands are forced.
        force: ForceVeneers,
    },
    /// Lists a file of items as assembly text.
    List,
    /// Lists the roles of the registers in a file of items.
    Roles,
    /// Tells what is wrong first with words of code.
    Audit,
    /// Shows words as the texts of their forms.
    Dis,
    /// Reads words from the texts of their forms.
    Undis,
    /// Links units.
    Link,
    /// Makes stubs.
    Stubs,
}

/// What the bytes are on which a command works.
#[derive(Clone, Copy, Debug, PartialEq, Eq)]
pub enum Format {
    /// The lines of a file of items.
    Items,
    /// The lines of words of code, of traps and of data, as a report has them.
    Words,
    /// The texts of words.
    Listing,
    /// The lines of units.
    Units,
    /// The lines of stubs.
    Addresses,
}

impl Command {
    /// What the command works on.
    pub fn works_on(self) -> Format
        ensures { result ≡ works_on self }
    {
        match self {
            Command::Asm(_) | Command::Gen { .. } | Command::List | Command::Roles => Format::Items,
            Command::Audit | Command::Dis => Format::Words,
            Command::Undis => Format::Listing,
            Command::Link => Format::Units,
            Command::Stubs => Format::Addresses,
        }
    }

    /// Whether the command forces islands.
    pub fn force(self) -> ForceVeneers
        ensures { result ≡ force_of self }
    {
        match self {
            Command::Asm(force) | Command::Gen { force, .. } => force,
            Command::List | Command::Roles => ForceVeneers::No,
            Command::Audit | Command::Dis | Command::Undis => ForceVeneers::No,
            Command::Link | Command::Stubs => ForceVeneers::No,
        }
    }
}

/// Whether a word is this text.
fn is_word(word: &str, text: &str) -> bool
    ensures { IsTrue result ↔ (word.now ≡ text.now) }
{
    word == text
}

/// Whether the words behind a command force islands: `force` does, and no word does not.
fn read_force(words: &[String]) -> Option<ForceVeneers>
    ensures { Reads Always force_words (map string_bytes words.now) result }
{
    match words {
        [] => Some(ForceVeneers::No),
        [word] if is_word(word.as_str(), "force") => Some(ForceVeneers::Yes),
        _ => None,
    }
}

/// The number of turns that a word is: from 1 to 100,000 in decimal, with no sign or `0` at its front.
fn read_count(word: &str) -> Option<u32>
    ensures { Reads IsCount decimal word.now result }
{
    match word.as_bytes() {
        [first, ..] if *first > b'0' => {}
        _ => return None,
    }
    match word.parse::<u32>() {
        Ok(count) if count > 0 && count <= MOST_TURNS => Some(count),
        _ => None,
    }
}

/// The command `asm`, of the words behind its name.
fn read_asm(words: &[String]) -> Option<Command>
    ensures { ReadsCommand (codes "asm" ∷ map string_bytes words.now) result }
{
    Some(Command::Asm(read_force(words)?))
}

/// The command `gen`, of the words behind its name.
fn read_gen(words: &[String]) -> Option<Command>
    ensures { ReadsCommand (codes "gen" ∷ map string_bytes words.now) result }
{
    match words {
        [count, rest @ ..] => Some(Command::Gen {
            count: read_count(count.as_str())?,
            force: read_force(rest)?,
        }),
        [] => None,
    }
}

/// The command that is this word alone: no word stands behind it.
fn read_alone(name: &str, words: &[String], command: Command) -> Option<Command>
    requires { alone_name command ≡ Some name.now }
    ensures { ReadsCommand (name.now ∷ map string_bytes words.now) result }
{
    match words {
        [] => Some(command),
        [_, ..] => None,
    }
}

/// The command with this name, of the words behind it.
fn read_named(name: &str, words: &[String]) -> Option<Command>
    ensures { ReadsCommand (name.now ∷ map string_bytes words.now) result }
{
    if is_word(name, "asm") {
        read_asm(words)
    } else if is_word(name, "gen") {
        read_gen(words)
    } else if is_word(name, "list") {
        read_alone(name, words, Command::List)
    } else if is_word(name, "roles") {
        read_alone(name, words, Command::Roles)
    } else if is_word(name, "audit") {
        read_alone(name, words, Command::Audit)
    } else if is_word(name, "dis") {
        read_alone(name, words, Command::Dis)
    } else if is_word(name, "undis") {
        read_alone(name, words, Command::Undis)
    } else if is_word(name, "link") {
        read_alone(name, words, Command::Link)
    } else if is_word(name, "stubs") {
        read_alone(name, words, Command::Stubs)
    } else {
        None
    }
}

/// The command that the words are; no word stands for `asm`. It takes no memory.
pub fn command_of(words: &[String]) -> Option<Command>
    ensures { ReadsCommand (map string_bytes words.now) result }
{
    match words {
        [] => Some(Command::Asm(ForceVeneers::No)),
        [name, rest @ ..] => read_named(name.as_str(), rest),
    }
}
