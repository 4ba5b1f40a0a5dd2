//! Makes addressing modes of their fields.

ghost use Rattle.std.specs.Prelude.{◌≡◌, pos};
ghost use Rattle.a64_read.specs.ModeMakes.{MakesMode, MakesPair};
ghost use Rattle.a64_read.specs.Modes.{IsScaled, scaled_parts, IsMemLabel, mem_label_parts};
ghost use Rattle.a64_tokens.specs.Reads.{Reads, IsU32};
ghost use Rattle.a64_tokens.specs.Types as types;

use crate::at;
use crate::mode_name::{ModeName, PairModeName};
use a64_base::{IrType, MachLabel, VCodeConstant};
use a64_imms::UImm12Scaled;
use a64_inst::{AMode, MemLabel};
use a64_tokens::label_name::MemLabelName;
use a64_tokens::pair_mode::WrittenPairMode;
use a64_tokens::value::Value;

/// Whether the size of the type scales an unsigned offset.
fn is_scale(ty: IrType) -> bool
    ensures { result ≡ types.is_scale ty }
{
    matches!(
        ty,
        IrType::I8 | IrType::I16 | IrType::I32 | IrType::I64 | IrType::I8X16
    )
}

/// The unsigned offset that the constructor gives for the value at the scale.
fn scaled_of(value: i64, scale: IrType) -> Option<UImm12Scaled>
    ensures { Reads IsScaled scaled_parts (value, scale) result }
{
    if !is_scale(scale) {
        return None;
    }
    UImm12Scaled::maybe_from_i64(value, scale)
}

/// The number, where it has 32 bits.
fn index_of(number: i64) -> Option<u32>
    ensures { Reads IsU32 (λ n. pos n) number result }
{
    if number < 0 || number > i64::from(u32::MAX) {
        return None;
    }
    Some(number as u32)
}

/// The address in the code that the name and the number are.
fn mem_label_of(name: MemLabelName, number: i64) -> Option<MemLabel>
    ensures { Reads IsMemLabel mem_label_parts (name, number) result }
{
    match name {
        MemLabelName::PCRel => {
            if number < i64::from(i32::MIN) || number > i64::from(i32::MAX) {
                return None;
            }
            Some(MemLabel::PCRel(number as i32))
        }
        MemLabelName::Mach => Some(MemLabel::Mach(MachLabel(index_of(number)?))),
        MemLabelName::Pool => Some(MemLabel::Pool(VCodeConstant(index_of(number)?))),
    }
}

/// A base plus an unsigned offset.
#[tactic(auto, unfolding(crate::specs::ModeMakes::MakesMode))]
fn unsigned_offset(values: &[Value]) -> Option<AMode>
    ensures { MakesMode ModeName.UnsignedOffset values.now result }
{
    Some(AMode::UnsignedOffset {
        rn: at::get(values, 0),
        uimm12: scaled_of(at::get(values, 1), at::get(values, 2))?,
    })
}

/// An address in the code.
#[tactic(auto, unfolding(crate::specs::ModeMakes::MakesMode))]
fn in_code(values: &[Value]) -> Option<AMode>
    ensures { MakesMode ModeName.Label values.now result }
{
    Some(AMode::Label {
        label: mem_label_of(at::get(values, 0), at::get(values, 1))?,
    })
}

/// The mode of this name with these fields.
#[tactic(auto, unfolding(crate::specs::ModeMakes::MakesMode))]
pub fn make_mode(name: ModeName, values: &[Value]) -> Option<AMode>
    ensures { MakesMode name values.now result }
{
    match name {
        ModeName::RegReg => Some(AMode::RegReg {
            rn: at::get(values, 0),
            rm: at::get(values, 1),
        }),
        ModeName::RegScaled => Some(AMode::RegScaled {
            rn: at::get(values, 0),
            rm: at::get(values, 1),
        }),
        ModeName::RegScaledExtended => Some(AMode::RegScaledExtended {
            rn: at::get(values, 0),
            rm: at::get(values, 1),
            extendop: at::get(values, 2),
        }),
        ModeName::RegExtended => Some(AMode::RegExtended {
            rn: at::get(values, 0),
            rm: at::get(values, 1),
            extendop: at::get(values, 2),
        }),
        ModeName::Unscaled => Some(AMode::Unscaled {
            rn: at::get(values, 0),
            simm9: at::get(values, 1),
        }),
        ModeName::UnsignedOffset => unsigned_offset(values),
        ModeName::Label => in_code(values),
        ModeName::SPPreIndexed => Some(AMode::SPPreIndexed {
            simm9: at::get(values, 0),
        }),
        ModeName::SPPostIndexed => Some(AMode::SPPostIndexed {
            simm9: at::get(values, 0),
        }),
        ModeName::FPOffset => Some(AMode::FPOffset {
            off: at::get(values, 0),
        }),
        ModeName::SPOffset => Some(AMode::SPOffset {
            off: at::get(values, 0),
        }),
        ModeName::IncomingArg => Some(AMode::IncomingArg {
            off: at::get(values, 0),
        }),
        ModeName::SlotOffset => Some(AMode::SlotOffset {
            off: at::get(values, 0),
        }),
        ModeName::RegOffset => Some(AMode::RegOffset {
            rn: at::get(values, 0),
            off: at::get(values, 1),
        }),
        ModeName::Const => Some(AMode::Const {
            addr: VCodeConstant(at::get(values, 0)),
        }),
    }
}

/// The mode of a pair of this name with these fields.
#[tactic(auto, unfolding(crate::specs::ModeMakes::MakesPair))]
pub fn make_pair_mode(name: PairModeName, values: &[Value]) -> Option<WrittenPairMode>
    ensures { MakesPair name values.now result }
{
    match name {
        PairModeName::SignedOffset => Some(WrittenPairMode::SignedOffset {
            reg: at::get(values, 0),
            offset: at::get(values, 1),
        }),
        PairModeName::SPPreIndexed => Some(WrittenPairMode::SPPreIndexed {
            offset: at::get(values, 0),
        }),
        PairModeName::SPPostIndexed => Some(WrittenPairMode::SPPostIndexed {
            offset: at::get(values, 0),
        }),
    }
}
