//! Kinds of uses with short ranges, so that short programs meet islands.

ghost use Rattle.std.specs.Prelude.{◌≡◌, ◌<◌, ◌*◌, ◌-◌, ◌^◌, ◌*ℤ◌, pos, negsuc, suc, nat_lt, if◌then◌else◌, length, [], ◌∷◌};
ghost use Rattle.a64_words.specs.Word.{word_at, StandAt};

use a64_base::Reloc;
use a64_buffer::{MachInstLabelUse, patch_field};

/// Kinds whose ranges are 127, 255 and 2,047 bytes.
#[derive(Clone, Copy, Debug, PartialEq, Eq)]
pub enum ShortUse {
    /// Urgency 1: 14 bits from bit 5 up, which count words.
    Near,
    /// Urgency 2: 19 bits from bit 5 up, which count words.
    Middle,
    /// Urgency 3: the low 26 bits, which count words.
    Far,
    /// The whole word, to which the distance in bytes is added.
    Add32,
}

/// The bytes of the words of a far veneer but for its last.
const FAR_BYTES: [u8; 16] = [
    0x01, 0, 0, 0xf0, 0x02, 0, 0, 0xf0, 0x03, 0, 0, 0xf0, 0x04, 0, 0, 0xf0,
];

/// Writes the words of a far veneer in front of its last, which stays.
fn write_far(buffer: &mut [u8])
    requires { length buffer.old ≡ 20 }
    ensures words { StandAt buffer.new 0 (0xf0000001 ∷ 0xf0000002 ∷ 0xf0000003 ∷ 0xf0000004
        ∷ []) }
    ensures last { word_at buffer.new 16 ≡ word_at buffer.old 16 }
{
    buffer[..16].copy_from_slice(&FAR_BYTES);
}

/// A signed number of so many bits, in units of four.
fn scaled(count: u32, half: u32) -> i64
    requires count { count < 2 * half }
    requires half { half < 2 ^ 26 }
    ensures { result ≡ (if nat_lt count half then pos count else negsuc (2 * half - suc count))
        *ℤ pos 4 }
{
    if count < half {
        i64::from(count) * 4
    } else {
        (i64::from(count) - 2 * i64::from(half)) * 4
    }
}

impl MachInstLabelUse for ShortUse {
    ghost use Rattle.std.specs.Prelude.{true, false, None, ◌==◌, refl};
    ghost use Rattle.std.proofs.Common.{arith};
    ghost use Rattle.std.proofs.lemmas.Bool.{false≢true};
    ghost use Rattle.a64_words.specs.Word.{signed, field_bits, mask_of};
    ghost use Rattle.a64_tests.specs.declared.short_use.ShortUse.TheVariants.{Near, Middle, Far, Add32};

    ghost kinds = { record {
      mask = elim [
        | Near ↦ mask_of 5 14
        | Middle ↦ mask_of 5 19
        | Far ↦ mask_of 0 26
        | Add32 ↦ 2 ^ 32 - 1
      ];
      field = λ kind word. elim kind [
        | Near ↦ signed 14 (field_bits 5 14 word) *ℤ pos 4
        | Middle ↦ signed 19 (field_bits 5 19 word) *ℤ pos 4
        | Far ↦ signed 26 (field_bits 0 26 word) *ℤ pos 4
        | Add32 ↦ signed 32 word
      ];
      forward = elim [ Near ↦ 127 | Middle ↦ 255 | Far ↦ 2047 | Add32 ↦ 2 ^ 31 - 1 ];
      backward = elim [ Near ↦ 128 | Middle ↦ 256 | Far ↦ 2048 | Add32 ↦ 2 ^ 31 ];
      adds = elim [ Near ↦ false | Middle ↦ false | Far ↦ false | Add32 ↦ true ];
      counts_words = elim [ Near ↦ true | Middle ↦ true | Far ↦ true | Add32 ↦ false ];
      veneers = elim [ Near ↦ true | Middle ↦ true | Far ↦ true | Add32 ↦ false ];
      urgency = elim [ Near ↦ 1 | Middle ↦ 2 | Far ↦ 3 | Add32 ↦ 0 ];
      range = λ urgency. if urgency == 1 then 127 else if urgency == 2 then 255 else 2047;
      jump = Far;
      jump_word = 0x14000000;
      far_words = 0xf0000001 ∷ 0xf0000002 ∷ 0xf0000003 ∷ 0xf0000004 ∷ [];
      far_use = Add32;
      trap_word = 0xc11f;
      relocated = λ reloc addend. None;
    } };

    ghost ALIGN = { 4 };

    const ALIGN: u32 = 4;

    fn max_pos_range(self) -> u32 {
        match self {
            ShortUse::Near => 127,
            ShortUse::Middle => 255,
            ShortUse::Far => 2047,
            ShortUse::Add32 => (1 << 31) - 1,
        }
    }

    fn max_neg_range(self) -> u32 {
        self.max_pos_range() + 1
    }

    fn patch_size(self) -> u32 {
        4
    }

    fn patch(self, buffer: &mut [u8], use_offset: u32, label_offset: u32) {
        let distance = label_offset.wrapping_sub(use_offset);
        match self {
            ShortUse::Near => patch_field(buffer, 5, 14, distance >> 2),
            ShortUse::Middle => patch_field(buffer, 5, 19, distance >> 2),
            ShortUse::Far => patch_field(buffer, 0, 26, distance >> 2),
            ShortUse::Add32 => {
                let word = u32::from_le_bytes([buffer[0], buffer[1], buffer[2], buffer[3]]);
                buffer.copy_from_slice(&word.wrapping_add(distance).to_le_bytes());
            }
        }
    }

    fn read(self, word: u32) -> i64 {
        match self {
            ShortUse::Near => scaled((word >> 5) & 0x3fff, 1 << 13),
            ShortUse::Middle => scaled((word >> 5) & 0x7_ffff, 1 << 18),
            ShortUse::Far => scaled(word & 0x3ff_ffff, 1 << 25),
            ShortUse::Add32 => {
                if word < 1 << 31 {
                    i64::from(word)
                } else {
                    i64::from(word) - (1 << 32)
                }
            }
        }
    }

    fn supports_veneer(self) -> bool {
        match self {
            ShortUse::Add32 => false,
            _ => true,
        }
    }

    fn urgency(self) -> u8 {
        match self {
            ShortUse::Near => 1,
            ShortUse::Middle => 2,
            ShortUse::Far => 3,
            ShortUse::Add32 => 0,
        }
    }

    fn veneer_size(self) -> u32 {
        match self {
            ShortUse::Far => 20,
            _ => 4,
        }
    }

    fn worst_case_veneer_size() -> u32 {
        20
    }

    fn generate_veneer(self, buffer: &mut [u8], veneer_offset: u32) -> (u32, Self) {
        match self {
            ShortUse::Far => {
                write_far(buffer);
                (veneer_offset + 16, ShortUse::Add32)
            }
            _ => {
                buffer.copy_from_slice(&0x1400_0000_u32.to_le_bytes());
                (veneer_offset, ShortUse::Far)
            }
        }
    }

    fn from_reloc(_reloc: Reloc, _addend: i64) -> Option<Self> {
        None
    }

    fn jump_use() -> Self {
        ShortUse::Far
    }

    fn jump_word() -> u32 {
        0x1400_0000
    }

    fn trap_word() -> u32 {
        0xc11f
    }

    ghost lawful = { record {
      whole_mask = elim [
        | Near ↦ λ h. absurd (false≢true h)
        | Middle ↦ λ h. absurd (false≢true h)
        | Far ↦ λ h. absurd (false≢true h)
        | Add32 ↦ λ h. refl
      ];
      whole_field = elim [
        | Near ↦ λ h. absurd (false≢true h)
        | Middle ↦ λ h. absurd (false≢true h)
        | Far ↦ λ h. absurd (false≢true h)
        | Add32 ↦ λ h word within. refl
      ];
      urgency_most = elim [
        | Near ↦ omega arith
        | Middle ↦ omega arith
        | Far ↦ omega arith
        | Add32 ↦ omega arith
      ];
      veneer_urgency = elim [
        | Near ↦ λ h. omega arith
        | Middle ↦ λ h. omega arith
        | Far ↦ λ h. omega arith
        | Add32 ↦ λ h. absurd (false≢true h)
      ];
      urgent_replaces = elim [
        | Near ↦ λ u h. false≢true h
        | Middle ↦ λ u h. false≢true h
        | Far ↦ λ u h. false≢true h
        | Add32 ↦ λ u h. absurd (omega (arith, u))
      ];
      jump_veneers = refl;
      jump_urgency = refl;
      far_adds = refl;
      far_urgency = refl;
      far_forward = refl;
      one_range = elim [
        | Near ↦ λ u. refl
        | Middle ↦ λ u. refl
        | Far ↦ λ u. refl
        | Add32 ↦ λ u. absurd (omega (arith, u))
      ];
      range_second = omega arith;
      range_third = omega arith;
      third_of_first = omega arith;
      third_of_second = omega arith;
      third_least = omega arith;
      third_short = omega arith;
      backward_more = elim [
        | Near ↦ omega arith
        | Middle ↦ omega arith
        | Far ↦ omega arith
        | Add32 ↦ omega arith
      ];
      far_length = omega arith;
    } };

    ghost aligned = { refl };
}
