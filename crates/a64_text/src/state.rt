//! What was read so far.

ghost use Rattle.std.specs.Prelude.{◌≡◌};
ghost use Rattle.a64_text.specs.States.{contents_of, default_contents, start};
ghost use Rattle.a64_text.specs.AddsLine.{Holds};

use crate::entry::OnceName;
use crate::file::File;
use a64_buffer::Constants;
use a64_inst::{EmitFlags, EmitInfo, FrameLayout};
use a64_list::ListVec;
use std::alloc::Global;
use std::collections::BTreeSet;

/// What the lines so far say, and what they may not say again.
#[derive(Drop)]
pub struct ReaderState {
    /// What the file says.
    pub file: File,
    /// The names that were given, of those that a file gives at most once.
    pub given: BTreeSet<OnceName>,
}

/// The file that says nothing. It takes no memory.
fn empty_file(alloc: Global) -> File
    ensures { contents_of result ≡ default_contents }
{
    File {
        items: Vec::new(alloc),
        constants: Constants::new(alloc),
        frame: FrameLayout {
            setup_area_size: 0,
            tail_args_size: 0,
            clobber_size: 0,
            fixed_frame_storage_size: 0,
            outgoing_args_size: 0,
            restore: ListVec::new(alloc),
        },
        info: EmitInfo::new(EmitFlags {
            enable_probestack: false,
            enable_table_access_spectre_mitigation: false,
            use_csdb: false,
        }),
    }
}

/// The state before the first line. It takes no memory.
pub fn start_state(alloc: Global) -> ReaderState
    ensures { Holds result start }
{
    ReaderState {
        file: empty_file(alloc),
        given: BTreeSet::new(alloc),
    }
}
