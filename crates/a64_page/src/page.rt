//! The call that runs a command over a text.

ghost use Rattle.std.specs.Prelude.{◌≡◌, IfOk, length, map};
ghost use Rattle.std.specs.String.{string_bytes};
ghost use Rattle.a64_page.specs.Answers.{IsAnswer, IsRun, IsPut, name_of, over, words_of};

use crate::answer::Answer;
use crate::collector::Collector;
use a64_run::{SureSource, run};
use std::alloc::{AllocError, Global};

/// What a run wrote, and its status.
#[derive(Drop)]
struct Ended {
    /// What it wrote to its standard output.
    output: Collector,
    /// What it wrote to its standard error.
    line: Collector,
    /// The status with which the program ends.
    status: u8,
}

/// The word of a command, by its number; the empty word of a number that is none, which is no command.
fn name_of(command: u32) -> &'static str
    ensures { result.now ≡ name_of command }
{
    match command {
        0 => "asm",
        1 => "list",
        2 => "roles",
        3 => "audit",
        4 => "dis",
        5 => "undis",
        6 => "link",
        7 => "stubs",
        _ => "",
    }
}

/// The words of a command.
fn words_of(alloc: Global, command: u32, force: bool) -> Result<Vec<String>, AllocError>
    ensures { IfOk result (λ words. map string_bytes words.items ≡ words_of command force) }
{
    let mut words = Vec::new(alloc);
    words.push(String::from_str(alloc, name_of(command))?)?;
    if force {
        words.push(String::from_str(alloc, "force")?)?;
    }
    Ok(words)
}

/// Runs the command that the words are over a text.
fn run_over(alloc: Global, words: &[String], text: Vec<u8>) -> Ended
    ensures { IsRun (map string_bytes words.now) text.items result.output.bytes.items
        result.line.bytes.items result.status }
{
    let mut source = SureSource::new(text);
    let mut output = Collector::new(alloc);
    let mut line = Collector::new(alloc);
    let status = run(alloc, words, &mut source, &mut output, &mut line).status;
    Ended {
        output,
        line,
        status,
    }
}

/// Puts bytes at the front of a buffer, as far as it has room.
fn put(bytes: &[u8], room: &mut [u8])
    ensures { room.new ≡ over bytes.now room.old }
{
    if bytes.len() <= room.len() {
        room[..bytes.len()].copy_from_slice(bytes);
    } else {
        room.copy_from_slice(&bytes[..room.len()]);
    }
}

impl Ended {
    /// Puts what is shown into a buffer, and answers of it.
    fn put_into(&self, room: &mut [u8]) -> Answer
        ensures { IsPut self.now.status self.now.output.bytes.items self.now.line.bytes.items
            room.old room.new result }
    {
        let shown = if self.status == 0 {
            &self.output.bytes
        } else {
            &self.line.bytes
        };
        put(shown, room);
        Answer {
            status: i32::from(self.status),
            length: shown.len(),
        }
    }
}

/// Runs a command over a text, as far as there is memory for the words and a copy of the text.
fn run_command(alloc: Global, command: u32, force: bool, text: &[u8]) -> Result<Ended, AllocError>
    ensures { IfOk result (λ ended. IsRun (words_of command force) text.now
        ended.output.bytes.items ended.line.bytes.items ended.status) }
{
    let words = words_of(alloc, command, force)?;
    let text = Vec::from_slice(alloc, text)?;
    Ok(run_over(alloc, &words, text))
}

/// Runs a command of the program over a text in the place of its standard input: `asm`, `list`, `roles`, `audit`,
/// `dis`, `undis`, `link` and `stubs` have the numbers 0 to 7, and another number is no command. `force` puts the
/// word `force` behind it. At status 0 what the program writes to its standard output stands at the front of `room`,
/// and else what it writes to its standard error, as far as there is room; `room` is as it was behind that. Nothing
/// is asked of the caller but that its memory is valid.
///
/// Status 3 is never answered. Status 4 is want of memory for what is written, and at status 5 `room` may be as it
/// was, and the length 0: then there was no memory for the text.
#[unsafe(no_mangle)]
pub extern "C" fn a64_page_run(
    alloc: Global,
    command: u32,
    force: bool,
    text: &[u8],
    room: &mut [u8],
) -> Answer
    ensures { IsAnswer command force text.now room.old room.new result }
{
    match run_command(alloc, command, force, text) {
        Ok(ended) => ended.put_into(room),
        Err(AllocError) => Answer {
            status: 5,
            length: 0,
        },
    }
}
