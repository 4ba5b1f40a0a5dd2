//! Words of uses of labels, from outside.

ghost use Rattle.std.specs.Prelude.{◌≡◌, ◌%◌, IsTrue};
ghost use Rattle.a64_buffer.specs.Kinds.{IsWithin};
ghost use Rattle.a64_label_use.specs.LabelUses.{label_kinds};

use a64_buffer::MachInstLabelUse;
use a64_label_use::LabelUse;
use std::test::Fail;

#[test]
fn distances_that_words_say(rt: HostRuntime) -> Result<(), Fail> {
    for (kind, word, distance) in [
        // tbz x0, #0, #-4; cbz x0, #4; b #-4; ldr x0, #-8; adr x0, #-1
        (LabelUse::Branch14, 0x3607_ffe0, -4),
        (LabelUse::Branch19, 0xb400_0020, 4),
        (LabelUse::Branch26, 0x17ff_ffff, -4),
        (LabelUse::Ldr19, 0x58ff_ffc0, -8),
        (LabelUse::Adr21, 0x70ff_ffe0, -1),
        (LabelUse::Adr21, 0x707f_ffe0, (1 << 20) - 1),
        (LabelUse::PCRel32, 0xffff_ffcc, -52),
    ] {
        assert_eq!(rt; kind.read(word), distance, "of {word:x}");
    }
    assert_eq!(rt; LabelUse::Branch26.patch_size(), LabelUse::ALIGN);
    Ok(())
}

/// The word that another becomes where its use is patched.
fn patched(kind: LabelUse, word: u32, use_offset: u32, label_offset: u32) -> u32
    requires aligned { IsTrue (label_kinds.counts_words kind)
        → label_offset % 4 ≡ use_offset % 4 }
    requires within { IsWithin (label_kinds.forward kind) (label_kinds.backward kind) use_offset
        label_offset }
{
    let mut bytes = word.to_le_bytes();
    kind.patch(&mut bytes, use_offset, label_offset);
    u32::from_le_bytes(bytes)
}

#[test]
fn patches(rt: HostRuntime) -> Result<(), Fail> {
    assert_eq!(rt; patched(LabelUse::PCRel32, 8, 100, 40), 0xffff_ffcc);
    // ldr x0, #8; adr x0, #-1
    assert_eq!(rt; patched(LabelUse::Ldr19, 0x5800_0000, 0, 8), 0x5800_0040);
    assert_eq!(rt; patched(LabelUse::Adr21, 0x1000_0000, 5, 4), 0x70ff_ffe0);
    Ok(())
}
