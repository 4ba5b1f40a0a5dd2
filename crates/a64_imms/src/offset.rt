//! Offsets in addressing modes.

ghost use Rattle.std.specs.Prelude.{◌≡◌, ℕ, ℤ, pos, ◌+ℤ◌, ◌-ℤ◌, ◌*ℤ◌, ◌≤ℤ◌, ◌<◌, ◌≤◌, ◌+◌, ◌*◌, ◌/◌, ◌%◌, ◌^◌, MatchOption, ⊤};
ghost use Rattle.a64_imms.specs.Texts.{number_text, signed_text};
ghost use Rattle.a64_imms.specs.Scales.{type_bytes, IsPairScale};
ghost use Rattle.a64_imms.specs.Offsets.{residue, signed, floor_div, IsOffset9, IsPairOffset, IsScaledOffset};

use crate::class::ImmClass;
use crate::text::{text_of_number, text_of_signed};
use a64_base::{IrType, PrettyPrint, Text};
use std::alloc::Global;

/// A signed offset of 9 bits.
#[derive(Clone, Copy, Debug)]
pub struct SImm9 {
    /// The offset in bytes, from -256 to 255.
    pub value: i16,
}

impl SImm9 {
    /// The offset of a value from -256 to 255.
    pub fn maybe_from_i64(value: i64) -> Option<SImm9>
        ensures { MatchOption result (¬ IsOffset9 value) (λ imm. IsOffset9 value
            × (imm.value ≡ value)) }
    {
        if value >= -256 && value <= 255 {
            Some(SImm9 {
                value: value as i16,
            })
        } else {
            None
        }
    }

    /// The field's nine bits: the offset modulo 512.
    pub fn bits(&self) -> u32
        requires { IsOffset9 self.now.value }
        ensures value { result ≡ residue 512 self.now.value }
        ensures below { result < 512 }
        ensures back { self.now.value ≡ signed 9 result }
    {
        (i32::from(self.value) + 512) as u32 % 512
    }

    /// The offset in bytes.
    pub fn value(&self) -> i32
        requires { IsOffset9 self.now.value }
        ensures { result ≡ self.now.value }
    {
        i32::from(self.value)
    }
}

/// `#` and the offset.
impl PrettyPrint for SImm9 {
    ghost text = { λ imm _. signed_text imm.value };

    ghost can_print = { λ imm _. IsOffset9 imm.value };

    fn pretty_print(&self, alloc: Global, _size_bytes: u8) -> Text {
        text_of_signed(alloc, i64::from(self.value))
    }
}

impl ImmClass for SImm9 {
    ghost use Rattle.a64_imms.specs.Laws.{one_offset9};

    type Parameter = ();

    type Value = i32;

    ghost set = { λ _. IsOffset9 };

    ghost lawful = { λ _ imm. IsOffset9 imm.value };

    ghost value = { λ _ imm. imm.value };

    ghost field = { λ _ imm. residue 512 imm.value };

    ghost within = { λ _ _ lawful. lawful };

    ghost one_value = { λ _ x y in_x in_y same. one_offset9 x.value y.value in_x in_y same };
}

/// A signed offset of a pair: 7 bits, times the size of a type.
#[derive(Clone, Copy, Debug)]
pub struct SImm7Scaled {
    /// The offset in bytes: a multiple of the scale, from -64 to 63 times it.
    pub value: i16,
    /// The type whose size in bytes is the scale: `I64`, `I32`, `F64` or `I8X16`.
    pub scale_ty: IrType,
}

impl SImm7Scaled {
    /// The offset of a multiple of the scale from -64 to 63 times it.
    pub fn maybe_from_i64(value: i64, scale_ty: IrType) -> Option<SImm7Scaled>
        requires { IsPairScale scale_ty }
        ensures { MatchOption result (¬ IsPairOffset scale_ty value)
            (λ imm. IsPairOffset scale_ty value × (imm.value ≡ value)
            × (imm.scale_ty ≡ scale_ty)) }
    {
        let bytes = scale_ty.bytes();
        let scale = i64::from(bytes);
        if value >= -64 * scale
            && value <= 63 * scale
            && value.unsigned_abs() % u64::from(bytes) == 0
        {
            Some(SImm7Scaled {
                value: value as i16,
                scale_ty,
            })
        } else {
            None
        }
    }

    /// The field's seven bits: the offset in units of the scale, modulo 128.
    pub fn bits(&self) -> u32
        requires { IsPairOffset self.now.scale_ty self.now.value }
        ensures value { result ≡ residue 128
            (floor_div self.now.value (type_bytes self.now.scale_ty)) }
        ensures below { result < 128 }
        ensures back { self.now.value ≡ signed 7 result *ℤ pos (type_bytes self.now.scale_ty) }
    {
        let units = u32::from(self.value.unsigned_abs()) / self.scale_ty.bytes();
        if self.value < 0 { 128 - units } else { units }
    }
}

/// `#` and the offset in bytes.
impl PrettyPrint for SImm7Scaled {
    ghost text = { λ imm _. signed_text imm.value };

    ghost can_print = { λ imm _. IsPairOffset imm.scale_ty imm.value };

    fn pretty_print(&self, alloc: Global, _size_bytes: u8) -> Text {
        text_of_signed(alloc, i64::from(self.value))
    }
}

impl ImmClass for SImm7Scaled {
    ghost use Rattle.a64_imms.specs.Laws.{one_pair_offset};

    type Parameter = IrType;

    type Value = i32;

    ghost set = { IsPairOffset };

    ghost lawful = { λ scale_ty imm. (imm.scale_ty ≡ scale_ty) × IsPairOffset scale_ty imm.value };

    ghost value = { λ _ imm. imm.value };

    ghost field = { λ scale_ty imm. residue 128 (floor_div imm.value (type_bytes scale_ty)) };

    ghost within = { λ _ _ lawful. lawful.1 };

    ghost one_value = { λ scale_ty x y of_x of_y.
        one_pair_offset scale_ty x.value y.value of_x.1 of_y.1 };
}

/// An unsigned offset: 12 bits, times the size of a type.
#[derive(Clone, Copy, Debug)]
pub struct UImm12Scaled {
    value: u16,
    scale_ty: IrType,
    pub ghost in_set: { IsScaledOffset scale_ty (pos value) },
}

impl UImm12Scaled {
    ghost use Rattle.a64_imms.specs.ScaledOffsets.{uimm12_value, uimm12_scale};

    /// The offset of a multiple of the scale from 0 to 4095 times it.
    pub fn maybe_from_i64(value: i64, scale_ty: IrType) -> Option<UImm12Scaled>
        requires { type_bytes scale_ty ≤ 16 }
        ensures { MatchOption result (¬ IsScaledOffset scale_ty value)
            (λ imm. IsScaledOffset scale_ty value × (pos (uimm12_value imm) ≡ value)
            × (uimm12_scale imm ≡ scale_ty)) }
    {
        let scale = u64::from(scale_ty.bytes());
        if value < 0 {
            return None;
        }
        let offset = value as u64;
        if offset <= 4095 * scale && offset % scale == 0 {
            Some(UImm12Scaled {
                value: offset as u16,
                scale_ty,
            })
        } else {
            None
        }
    }

    /// The offset 0.
    pub fn zero(scale_ty: IrType) -> UImm12Scaled
        requires { type_bytes scale_ty ≤ 16 }
        ensures value { uimm12_value result ≡ 0 }
        ensures scale { uimm12_scale result ≡ scale_ty }
    {
        UImm12Scaled { value: 0, scale_ty }
    }

    /// The field's twelve bits: the offset in units of the scale.
    pub fn bits(&self) -> u32
        ensures value { result ≡ uimm12_value self.now / type_bytes (uimm12_scale self.now) }
        ensures exact { result * type_bytes (uimm12_scale self.now) ≡ uimm12_value self.now }
        ensures below { result < 4096 }
    {
        u32::from(self.value) / self.scale_ty.bytes()
    }

    /// The offset in bytes.
    pub fn value(&self) -> u32
        ensures value { result ≡ uimm12_value self.now }
        ensures in_set { IsScaledOffset (uimm12_scale self.now) (pos result) }
    {
        u32::from(self.value)
    }
}

/// `#` and the offset in bytes.
impl PrettyPrint for UImm12Scaled {
    ghost use Rattle.a64_imms.specs.ScaledOffsets.{uimm12_value};

    ghost text = { λ imm _. number_text (uimm12_value imm) };

    ghost can_print = { λ _ _. ⊤ };

    fn pretty_print(&self, alloc: Global, _size_bytes: u8) -> Text {
        text_of_number(alloc, u64::from(self.value))
    }
}

impl ImmClass for UImm12Scaled {
    ghost use Rattle.a64_imms.specs.ScaledOffsets.{uimm12_value, uimm12_scale};
    ghost use Rattle.a64_imms.specs.ScaledLaws.{scaled_offset_within, one_scaled_offset};

    type Parameter = IrType;

    type Value = i64;

    ghost set = { IsScaledOffset };

    ghost lawful = { λ scale_ty imm. uimm12_scale imm ≡ scale_ty };

    ghost value = { λ _ imm. pos (uimm12_value imm) };

    ghost field = { λ scale_ty imm. uimm12_value imm / type_bytes scale_ty };

    ghost within = { scaled_offset_within };

    ghost one_value = { one_scaled_offset };
}
