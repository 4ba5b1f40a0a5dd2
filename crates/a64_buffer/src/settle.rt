//! Words that lead to the stops of their uses, and what finished code is made of.

ghost use Rattle.std.specs.Prelude.{◌≡◌, ◌+◌, ◌%◌, ◌≤◌, length, All, IfOk};
ghost use Rattle.a64_words.specs.Word.{words_of};
ghost use Rattle.a64_buffer.specs.Sound.{IsPlaced, AreApart};
ghost use Rattle.a64_buffer.specs.Settled.{Reaches, MayLead, PatchesCode, IsSettledCode, Lists};

use crate::label_use::MachInstLabelUse;
use crate::site::Use;
use a64_base::MachLabel;
use a64_label_map::LabelMap;
use std::alloc::{AllocError, Global};

/// Makes the word of one use lead to a place.
#[inline(always)]
fn settle_use<K: MachInstLabelUse>(bytes: &mut [u8], kind: K, use_offset: u32, place: u32)
    requires inside { use_offset + 4 ≤ length bytes.old }
    requires reaches { Reaches K.kinds kind use_offset place }
    ensures { PatchesCode K.kinds kind use_offset place bytes.old bytes.new }
{
    let at = use_offset as usize;
    kind.patch(&mut bytes[at..at + 4], use_offset, place);
}

/// Makes the words of all uses lead to their stops, where they have one, in the bytes of words as they
/// were put.
pub fn settle<K: MachInstLabelUse>(bytes: &mut [u8], uses: &[Use<K>])
    requires whole { length bytes.old % 4 ≡ 0 }
    requires placed { All (IsPlaced (length bytes.old)) uses.now }
    requires apart { AreApart uses.now }
    requires able { All (MayLead K.kinds) uses.now }
    ensures { IsSettledCode K.kinds (words_of bytes.old) uses.now bytes.new }
{
    for site in uses {
        let Some(place) = site.stop else {
            continue;
        };
        settle_use(bytes, site.kind, site.offset, place);
    }
}

/// The labels of a map with their places, by number.
pub fn labels_in_order(
    alloc: Global,
    labels: &LabelMap<u32>,
) -> Result<Vec<(MachLabel, u32)>, AllocError>
    ensures { IfOk result (λ list. Lists labels.now list.items) }
{
    let entries = labels.entries(alloc)?;
    let mut list = Vec::with_capacity(alloc, entries.len())?;
    for &(label, place) in &entries {
        list.push_reserved((MachLabel(label), place));
    }
    Ok(list)
}
