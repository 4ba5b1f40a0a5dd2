//! The assembler as a static library for C: a text goes in, and code and its records stand in buffers of the
//! caller's. So do the listing of a text, and the line of a word; and words are audited.
#![tactic(auto)]

mod answer;
mod audit;
mod code;
mod listing;
mod record;
mod recording;
mod text;
mod word;

pub use answer::Answer;
pub use audit::{Range, a64_audit_words};
pub use listing::a64_list_text;
pub use record::{Island, LabelPlace, PatchableCall, Relocation, StackMap, Trap};
pub use recording::{Counts, a64_assemble_records};
pub use text::a64_assemble_text;
pub use word::{ReadWord, a64_read_word, a64_show_word};
