//! Kinds of label uses.

ghost use Rattle.std.specs.Prelude.{ℕ, ◌≡◌, ◌≤◌, ◌^◌, IsTrue, ◌%◌, length};
ghost use Rattle.std.specs.Int.{w32, from_le_bytes};
ghost use Rattle.a64_words.specs.Word.{outside};
ghost use Rattle.a64_buffer.specs.Kinds.{Kinds, IsWithin, GoesTo, SaysDistance, IsLawful, veneer_bytes, IsVeneer};

use a64_base::Reloc;

/// A kind of use of a label in a word of code (Cranelift's `MachInstLabelUse`).
///
/// Distances, ranges and offsets are bytes.
pub trait MachInstLabelUse: Copy + Eq {
    /// What the kinds mean.
    ghost kinds: { Kinds Self };

    /// What the alignment of code is.
    ghost ALIGN: { ℕ };

    /// The alignment of code.
    const ALIGN: u32;

    /// How far ahead of its use a label may be, inclusive.
    fn max_pos_range(self) -> u32
        ensures { result ≡ kinds.forward self };

    /// How far behind its use a label may be, inclusive.
    fn max_neg_range(self) -> u32
        ensures { result ≡ kinds.backward self };

    /// The number of bytes that a patch may change.
    fn patch_size(self) -> u32
        ensures { result ≡ 4 };

    /// Makes the word of a use lead to its label: a patch keeps all other bits.
    fn patch(self, buffer: &mut [u8], use_offset: u32, label_offset: u32)
        requires word { length buffer.old ≡ 4 }
        requires aligned { IsTrue (kinds.counts_words self)
            → label_offset % 4 ≡ use_offset % 4 }
        requires within { IsWithin (kinds.forward self)
            (kinds.backward self) use_offset label_offset }
        ensures rest { outside (kinds.mask self) (from_le_bytes w32 buffer.new)
            ≡ outside (kinds.mask self) (from_le_bytes w32 buffer.old) }
        ensures leads { GoesTo kinds self (from_le_bytes w32 buffer.old)
            (from_le_bytes w32 buffer.new)
            use_offset label_offset }
        ensures says { SaysDistance kinds self (from_le_bytes w32 buffer.old)
            (from_le_bytes w32 buffer.new)
            use_offset label_offset };

    /// The signed distance that a word says: after a patch the distance to the label, and for a kind
    /// that adds, the old word and that distance.
    fn read(self, word: u32) -> i64
        ensures { result ≡ kinds.field self word };

    /// Whether a use may lead to a veneer in place of its label.
    fn supports_veneer(self) -> bool
        ensures { result ≡ kinds.veneers self };

    /// How soon a use wants a word in an island: 1 is soonest, 3 last, and 0 never.
    fn urgency(self) -> u8
        ensures { result ≡ kinds.urgency self };

    /// How many bytes a veneer of the kind has: one word at urgency 1 and 2, and a far veneer at 3.
    fn veneer_size(self) -> u32
        requires { IsTrue (kinds.veneers self) }
        ensures { result ≡ veneer_bytes kinds self };

    /// The bytes of the longest veneer.
    fn worst_case_veneer_size() -> u32
        ensures { result ≡ 20 };

    /// Writes a veneer that is to stand at an offset, and answers the place of its word that is a use
    /// in its turn, and the kind of that use. The last word of a far veneer stays as it was: it is to
    /// be zero.
    fn generate_veneer(self, buffer: &mut [u8], veneer_offset: u32) -> (u32, Self)
        requires veneers { IsTrue (kinds.veneers self) }
        requires size { length buffer.old ≡ veneer_bytes kinds self }
        requires low { veneer_offset ≤ 2 ^ 31 }
        ensures { IsVeneer kinds self veneer_offset buffer.old buffer.new result };

    /// The kind that a relocation is, where it is one.
    fn from_reloc(reloc: Reloc, addend: i64) -> Option<Self>
        ensures { result ≡ kinds.relocated reloc addend };

    /// The kind of the use that a jump is.
    fn jump_use() -> Self
        ensures { result ≡ kinds.jump };

    /// The word of a jump, with a distance of zero.
    fn jump_word() -> u32
        ensures { result ≡ kinds.jump_word };

    /// The word that traps.
    fn trap_word() -> u32
        ensures { result ≡ kinds.trap_word };

    /// The laws of kinds: what a kind that adds says, how urgency, veneers and ranges go together, and
    /// that a far veneer has five words at most.
    ghost lawful: { IsLawful kinds };

    /// Code stands at multiples of a word's bytes.
    ghost aligned: { ALIGN ≡ 4 };
}
