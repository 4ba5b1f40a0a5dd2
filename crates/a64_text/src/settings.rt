//! Sets what lines of a file say of its frame and its settings.

ghost use Rattle.std.specs.Prelude.{◌≡◌};
ghost use Rattle.a64_text.specs.Frames.{frame_with};
ghost use Rattle.a64_text.specs.Settings.{flags_with};

use a64_inst::{EmitInfo, FrameLayout};
use a64_tokens::emit_flag::EmitFlag;
use a64_tokens::frame_field::FrameField;

/// Sets a size of the frame, in bytes.
pub fn set_frame_field(frame: &mut FrameLayout, field: FrameField, bytes: u32)
    ensures { frame.new ≡ frame_with field bytes frame.old }
{
    match field {
        FrameField::SetupAreaSize => frame.setup_area_size = bytes,
        FrameField::TailArgsSize => frame.tail_args_size = bytes,
        FrameField::ClobberSize => frame.clobber_size = bytes,
        FrameField::FixedFrameStorageSize => frame.fixed_frame_storage_size = bytes,
        FrameField::OutgoingArgsSize => frame.outgoing_args_size = bytes,
    }
}

/// Sets the setting to true, and no other.
pub fn set_emit_flag(info: &mut EmitInfo, flag: EmitFlag)
    ensures { info.new ≡ flags_with flag info.old }
{
    let mut flags = info.flags();
    match flag {
        EmitFlag::EnableProbestack => flags.enable_probestack = true,
        EmitFlag::EnableTableAccessSpectreMitigation => {
            flags.enable_table_access_spectre_mitigation = true;
        }
        EmitFlag::UseCsdb => flags.use_csdb = true,
    }
    *info = EmitInfo::new(flags);
}
