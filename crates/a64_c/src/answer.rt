//! What a call answers.

ghost use Rattle.std.specs.Prelude.{◌≡◌};
ghost use Rattle.a64_c.specs.Answers.{answer_of, refusal_of_file_error};
ghost use Rattle.a64_c.specs.declared.answer.Refusal.TheVariants as refusals;

use a64_emit::EmitError;
use a64_text::FileError;

/// Why a text has no code.
#[derive(Clone, Copy, Debug)]
pub enum Refusal {
    /// The text has more than 16,777,216 bytes.
    TooLong,
    /// The line of this number, counted from 1, is the first that is no entry.
    Line(u64),
    /// There was no memory to read the text.
    Unread,
    /// The items are refused for this fault of theirs, or, where each is right by itself, or may be shown, want of
    /// memory.
    Assembly(EmitError),
}

/// What a call answers, of the code or the text that it makes or of what it finds.
#[repr(C)]
#[derive(Clone, Copy, Debug)]
pub struct Answer {
    /// 0 where all is well, and what was made stands in the caller's buffer; a64_c.h has a name for each status.
    pub status: i32,
    /// The line, the item or the label that is refused, or the range or the place that an audit finds; at want
    /// of memory 1 where the text was read, and each item is right by itself, or, to list it, may be shown; else 0.
    pub subject: u64,
    /// How many bytes the code or the text has, and 0 where there is none.
    pub length: usize,
}

impl From<FileError> for Refusal {
    ghost from_gives = { λ error refusal. refusal ≡ refusal_of_file_error error };

    fn from(error: FileError) -> Refusal {
        match error {
            FileError::BadLine(number) => Refusal::Line(number),
            FileError::OutOfMemory => Refusal::Unread,
        }
    }
}

impl From<EmitError> for Refusal {
    ghost from_gives = { λ error refusal. refusal ≡ refusals.Assembly error };

    fn from(error: EmitError) -> Refusal {
        Refusal::Assembly(error)
    }
}

impl Refusal {
    /// What is answered where there is no code.
    pub fn answer(self) -> Answer
        ensures { result ≡ answer_of self }
    {
        let (status, subject) = match self {
            Refusal::TooLong => (1, 0),
            Refusal::Line(number) => (2, number),
            Refusal::Unread => (11, 0),
            Refusal::Assembly(error) => match error {
                EmitError::BadOperand(index) => (3, index as u64),
                EmitError::BadMode(index) => (4, index as u64),
                EmitError::ScratchConflict(index) => (5, index as u64),
                EmitError::UnknownConstant(index) => (6, index as u64),
                EmitError::LabelBoundTwice(label) => (7, u64::from(label.0)),
                EmitError::UnboundLabel(label) => (8, u64::from(label.0)),
                EmitError::TooLarge => (9, 0),
                EmitError::OutOfReach(label) => (10, u64::from(label.0)),
                EmitError::OutOfMemory => (11, 1),
            },
        };
        Answer {
            status,
            subject,
            length: 0,
        }
    }
}
