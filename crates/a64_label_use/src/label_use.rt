//! The kinds of label uses of A64 code.

ghost use Rattle.std.specs.Prelude.{◌≡◌, ◌<◌, ◌≤◌, IsTrue, ◌+◌, ◌*◌, ◌/◌, ◌%◌, ◌-◌, ◌^◌, ◌*ℤ◌, pos, negsuc, suc, nat_lt, if◌then◌else◌, length, [], ◌∷◌, refl};
ghost use Rattle.std.specs.Int.{w32, from_le_bytes};
ghost use Rattle.a64_words.specs.Word.{word_at, StandAt, outside, field_bits};
ghost use Rattle.a64_buffer.specs.Kinds.{IsWithin, GoesTo, SaysDistance, IsVeneer, veneer_bytes};
ghost use Rattle.a64_label_use.specs.declared.label_use.LabelUse.TheVariants.{Adr21, PCRel32};
ghost use Rattle.a64_label_use.specs.LabelUses.{label_kinds, mask_for, distance_in};
ghost use Rattle.a64_label_use.specs.FarJumps.{JumpFar, LeadFar, first_words};

use a64_base::Reloc;
use a64_buffer::{MachInstLabelUse, patch_field};

/// A kind of use of a label in a word of A64 code (Cranelift's `LabelUse`).
#[derive(Clone, Copy, Debug, PartialEq, Eq)]
pub enum LabelUse {
    /// The 14-bit field of `tbz` and `tbnz`, bits 18 to 5, in words.
    Branch14,
    /// The 19-bit field of `b.cond`, `cbz` and `cbnz`, bits 23 to 5, in words.
    Branch19,
    /// The 26-bit field of `b` and `bl`, bits 25 to 0, in words.
    Branch26,
    /// The 19-bit field of loads of literals, bits 23 to 5, in words.
    Ldr19,
    /// The 21-bit distance of `adr` in bytes: its low two bits in bits 30 and 29, the others in bits 23 to 5.
    Adr21,
    /// A word to which the distance in bytes is added.
    PCRel32,
}

/// The bytes of the four instructions of a far veneer: `ldrsw x16, 16`, `adr x17, 12`,
/// `add x16, x16, x17` and `br x16`.
const FAR_BYTES: [u8; 16] = [
    0x90, 0x00, 0x00, 0x98, 0x71, 0x00, 0x00, 0x10, 0x10, 0x02, 0x11, 0x8b, 0x00, 0x02, 0x1f, 0xd6,
];

/// Writes the instructions of a far veneer in front of its last word, which stays.
fn write_far(buffer: &mut [u8])
    requires { length buffer.old ≡ 20 }
    ensures words { StandAt buffer.new 0 (0x98000090 ∷ 0x10000071 ∷ 0x8b110210 ∷ 0xd61f0200
        ∷ []) }
    ensures last { word_at buffer.new 16 ≡ word_at buffer.old 16 }
{
    buffer[..16].copy_from_slice(&FAR_BYTES);
}

/// A signed number of words, in bytes; `half` is the first count that is negative.
fn scaled(count: u32, half: u32) -> i64
    requires count { count < 2 * half }
    requires half { half < 2 ^ 26 }
    ensures { result ≡ (if nat_lt count half then pos count else negsuc
        (2 * half - suc count)) *ℤ pos 4 }
{
    if count < half {
        i64::from(count) * 4
    } else {
        (i64::from(count) - 2 * i64::from(half)) * 4
    }
}

/// Adds a distance to the word that four bytes are, modulo 2^32.
fn add_distance(buffer: &mut [u8], distance: u32)
    requires word { length buffer.old ≡ 4 }
    ensures { from_le_bytes w32 buffer.new ≡ (from_le_bytes w32 buffer.old + distance) % 2 ^ 32 }
{
    let mut bytes = [0; 4];
    bytes.copy_from_slice(buffer);
    let word = u32::from_le_bytes(bytes);
    buffer.copy_from_slice(&word.wrapping_add(distance).to_le_bytes());
}

/// Puts a distance in bytes into the two fields of `adr`, and keeps the rest.
fn patch_address(buffer: &mut [u8], distance: u32)
    requires word { length buffer.old ≡ 4 }
    ensures rest { outside (mask_for Adr21) (from_le_bytes w32 buffer.new)
        ≡ outside (mask_for Adr21) (from_le_bytes w32 buffer.old) }
    ensures high { field_bits 5 19 (from_le_bytes w32 buffer.new) ≡ distance / 4 % 2 ^ 19 }
    ensures low { field_bits 29 2 (from_le_bytes w32 buffer.new) ≡ distance % 4 }
{
    patch_field(buffer, 5, 19, distance >> 2);
    patch_field(buffer, 29, 2, distance);
}

/// The distance in bytes that the two fields of `adr` say.
fn address_distance(word: u32) -> i64
    ensures { result ≡ distance_in Adr21 word }
{
    let distance = i64::from(((word >> 5) & 0x7_ffff) << 2 | ((word >> 29) & 3));
    if distance < 1 << 20 {
        distance
    } else {
        distance - (1 << 21)
    }
}

impl MachInstLabelUse for LabelUse {
    ghost use Rattle.a64_label_use.specs.LabelLaws.{label_kinds_lawful};

    ghost kinds = { label_kinds };

    ghost ALIGN = { 4 };

    const ALIGN: u32 = 4;

    fn max_pos_range(self) -> u32 {
        match self {
            LabelUse::Branch14 => (1 << 15) - 1,
            LabelUse::Branch19 => (1 << 20) - 1,
            LabelUse::Branch26 => (1 << 27) - 1,
            LabelUse::Ldr19 | LabelUse::Adr21 => (1 << 20) - 1,
            LabelUse::PCRel32 => (1 << 31) - 1,
        }
    }

    fn max_neg_range(self) -> u32 {
        self.max_pos_range() + 1
    }

    fn supports_veneer(self) -> bool {
        match self {
            LabelUse::Ldr19 | LabelUse::Adr21 | LabelUse::PCRel32 => false,
            LabelUse::Branch14 | LabelUse::Branch19 | LabelUse::Branch26 => true,
        }
    }

    fn patch_size(self) -> u32 {
        4
    }

    fn patch(self, buffer: &mut [u8], use_offset: u32, label_offset: u32)
        requires word { length buffer.old ≡ 4 }
        requires aligned { IsTrue (label_kinds.counts_words self)
            → label_offset % 4 ≡ use_offset % 4 }
        requires within { IsWithin (label_kinds.forward self)
            (label_kinds.backward self) use_offset label_offset }
        ensures rest { outside (label_kinds.mask self) (from_le_bytes w32 buffer.new)
            ≡ outside (label_kinds.mask self) (from_le_bytes w32 buffer.old) }
        ensures leads { GoesTo label_kinds self (from_le_bytes w32 buffer.old)
            (from_le_bytes w32 buffer.new)
            use_offset label_offset }
        ensures says { SaysDistance label_kinds self (from_le_bytes w32 buffer.old)
            (from_le_bytes w32 buffer.new)
            use_offset label_offset }
        ensures far { self ≡ PCRel32 → from_le_bytes w32 buffer.old ≡ 0
            → LeadFar use_offset (from_le_bytes w32 buffer.new) label_offset }
    {
        let reaches = if use_offset <= label_offset {
            label_offset - use_offset <= self.max_pos_range()
        } else {
            use_offset - label_offset <= self.max_neg_range()
        };
        prove!(reaches);
        let distance = label_offset.wrapping_sub(use_offset);
        match self {
            LabelUse::Branch14 => patch_field(buffer, 5, 14, distance >> 2),
            LabelUse::Branch19 => patch_field(buffer, 5, 19, distance >> 2),
            LabelUse::Branch26 => patch_field(buffer, 0, 26, distance >> 2),
            LabelUse::Ldr19 => patch_field(buffer, 5, 19, distance >> 2),
            LabelUse::Adr21 => patch_address(buffer, distance),
            LabelUse::PCRel32 => add_distance(buffer, distance),
        }
    }

    fn read(self, word: u32) -> i64 {
        match self {
            LabelUse::Branch14 => scaled((word >> 5) & 0x3fff, 1 << 13),
            LabelUse::Branch19 | LabelUse::Ldr19 => scaled((word >> 5) & 0x7_ffff, 1 << 18),
            LabelUse::Branch26 => {
                let count = word & 0x3ff_ffff;
                if count < 1 << 25 {
                    i64::from(count) * 4
                } else {
                    (i64::from(count) - (1 << 26)) * 4
                }
            }
            LabelUse::Adr21 => address_distance(word),
            LabelUse::PCRel32 => {
                if word < 1 << 31 {
                    i64::from(word)
                } else {
                    i64::from(word) - (1 << 32)
                }
            }
        }
    }

    fn urgency(self) -> u8 {
        match self {
            LabelUse::Branch14 => 1,
            LabelUse::Branch19 | LabelUse::Ldr19 => 2,
            LabelUse::Branch26 => 3,
            LabelUse::Adr21 | LabelUse::PCRel32 => 0,
        }
    }

    fn veneer_size(self) -> u32 {
        match self {
            LabelUse::Branch26 => 20,
            _ => 4,
        }
    }

    fn worst_case_veneer_size() -> u32 {
        20
    }

    fn generate_veneer(self, buffer: &mut [u8], veneer_offset: u32) -> (u32, Self)
        requires veneers { IsTrue (label_kinds.veneers self) }
        requires size { length buffer.old ≡ veneer_bytes label_kinds self }
        requires low { veneer_offset ≤ 2 ^ 31 }
        ensures veneer { IsVeneer label_kinds self veneer_offset buffer.old buffer.new result }
        ensures far { label_kinds.urgency self ≡ 3 → JumpFar (first_words buffer.new) }
    {
        match self {
            LabelUse::Branch26 => {
                write_far(buffer);
                (veneer_offset + 16, LabelUse::PCRel32)
            }
            _ => {
                buffer.copy_from_slice(&0x1400_0000_u32.to_le_bytes());
                (veneer_offset, LabelUse::Branch26)
            }
        }
    }

    fn from_reloc(reloc: Reloc, addend: i64) -> Option<Self> {
        match reloc {
            Reloc::Arm64Call if addend == 0 => Some(LabelUse::Branch26),
            _ => None,
        }
    }

    fn jump_use() -> Self {
        LabelUse::Branch26
    }

    fn jump_word() -> u32 {
        0x1400_0000
    }

    fn trap_word() -> u32 {
        0xc11f
    }

    ghost lawful = { label_kinds_lawful };

    ghost aligned = { refl };
}
