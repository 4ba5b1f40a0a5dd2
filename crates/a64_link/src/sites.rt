//! Which relocations of a unit may be put.

ghost use Rattle.std.specs.Prelude.{◌≡◌, ◌+◌, ◌/◌, ◌&&◌, [], not, nat_lt, length, OnOk};
ghost use Rattle.std.specs.FinMap.{contains_key};
ghost use Rattle.a64_link.specs.Faults.{is_linked as linked, is_branch as branch, fits_call, is_good_site as good_site, reloc_fault as fault_of_reloc, relocs_fault, TellsFault};
ghost use Rattle.a64_link.specs.Sites.{AreTaken, HasTaken};

use crate::error::LinkError;
use crate::layout::is_call;
use crate::unit::Relocation;
use a64_base::Reloc;
use a64_label_map::LabelMap;
use std::alloc::{AllocError, Global};

/// Whether relocations of a kind are linked.
fn is_linked(kind: Reloc) -> bool
    ensures { result ≡ linked kind }
{
    matches!(kind, Reloc::Arm64Call | Reloc::Abs8)
}

/// Whether a word is a branch with an offset of 26 bits.
fn is_branch(word: u32) -> bool
    ensures { result ≡ branch word }
{
    word & 0x7c00_0000 == 0x1400_0000
}

/// Whether a call at a multiple of 4 may stand in its unit, whose words are these, of which some
/// are taken by other sites: its word is there, is not taken and is a branch, and nothing is added.
fn is_call_site(words: &[u32], taken: &LabelMap<()>, reloc: &Relocation) -> bool
    ensures { result ≡ (nat_lt (reloc.now.0 / 4) (length words.now)
        && (not (contains_key taken.now (reloc.now.0 / 4)) && fits_call words.now reloc.now)) }
{
    let at = reloc.0 / 4;
    (at as usize) < words.len()
        && !taken.contains(at)
        && reloc.3 == 0
        && is_branch(words[at as usize])
}

/// Whether an address at a multiple of 4 may stand in its unit, whose words are these, of which
/// some are taken by other sites: both of its words are there, and none of them is taken.
fn is_address_site(words: &[u32], taken: &LabelMap<()>, reloc: &Relocation) -> bool
    ensures { result ≡ (nat_lt (reloc.now.0 / 4 + 1) (length words.now)
        && (not (contains_key taken.now (reloc.now.0 / 4))
        && not (contains_key taken.now (reloc.now.0 / 4 + 1)))) }
{
    let at = reloc.0 / 4;
    (at as usize) + 1 < words.len() && !taken.contains(at) && !taken.contains(at + 1)
}

/// Whether a relocation may stand in its unit, whose words are these, of which some are taken by
/// the sites of those before it.
fn is_good_site(words: &[u32], taken: &LabelMap<()>, reloc: &Relocation) -> bool
    ensures { (before : _) → AreTaken before taken.now
        → result ≡ good_site words.now before reloc.now }
{
    if reloc.0 % 4 != 0 {
        return false;
    }
    if is_call(reloc.1) {
        return is_call_site(words, taken, reloc);
    }
    is_address_site(words, taken, reloc)
}

/// What is wrong with a relocation of the unit of this number, whose words are these, of which some
/// are taken by the sites of those before it.
fn reloc_fault(
    i: usize,
    words: &[u32],
    taken: &LabelMap<()>,
    reloc: &Relocation,
) -> Option<LinkError>
    ensures { (before : _) → AreTaken before taken.now
        → result ≡ fault_of_reloc i words.now before reloc.now }
{
    if !is_linked(reloc.1) {
        return Some(LinkError::UnsupportedReloc(i, reloc.0));
    }
    if !is_good_site(words, taken, reloc) {
        return Some(LinkError::BadSite(i, reloc.0));
    }
    None
}

/// Adds the numbers of the words that a relocation's site takes.
///
/// # Errors
///
/// Want of memory.
fn take_site(taken: &mut LabelMap<()>, reloc: &Relocation) -> Result<(), AllocError>
    ensures { OnOk result (HasTaken reloc.now taken.old taken.new) }
{
    let at = reloc.0 / 4;
    taken.insert(at, ())?;
    if !is_call(reloc.1) {
        taken.insert(at + 1, ())?;
    }
    Ok(())
}

/// Checks the relocations of the unit of this number, whose words are these.
///
/// # Errors
///
/// What is wrong with the first of them that cannot be put, or want of memory.
pub(crate) fn check_relocs(
    alloc: Global,
    i: usize,
    words: &[u32],
    relocs: &[Relocation],
) -> Result<(), LinkError>
    ensures { TellsFault result (relocs_fault i words.now [] relocs.now) }
{
    let mut taken = LabelMap::new(alloc);
    for reloc in relocs {
        if let Some(fault) = reloc_fault(i, words, &taken, reloc) {
            return Err(fault);
        }
        take_site(&mut taken, reloc)?;
    }
    Ok(())
}
