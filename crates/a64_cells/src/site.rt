//! Uses of the words of instructions.

ghost use Rattle.std.specs.Prelude.{◌≡◌, option_map};
ghost use Rattle.a64_cells.specs.Cells as cells;

use a64_base::MachLabel;
use a64_buffer::Target;
use a64_inst::{AMode, MemLabel};
use a64_label_use::LabelUse;

/// A use that a word is.
#[derive(Clone, Copy, Debug)]
pub struct Site {
    /// The kind of use.
    pub kind: LabelUse,
    /// What it leads to.
    pub target: Target,
}

/// A use of one of the words of an instruction.
#[derive(Clone, Copy, Debug)]
pub struct CellUse {
    /// The index of the word among those of the instruction.
    pub cell: usize,
    /// The use.
    pub site: Site,
}

/// A table of labels in the words of an instruction, of which each entry is a use.
#[derive(Clone, Copy)]
pub struct Table<'a> {
    /// The index of the first entry among the words of the instruction.
    pub first: usize,
    /// The labels of the entries.
    pub targets: &'a [MachLabel],
    /// The label of the entry behind them.
    pub default: MachLabel,
}

/// The uses of the words of an instruction: of the first two words, or of a table behind those.
///
/// Told by number, with a loop over them in each check, they take some 190 machine instructions of each
/// pair of a jump and its label. A new instruction with a use is not forgotten, since the prover looks
/// at each variant behind the `_` of a match.
#[derive(Clone, Copy)]
pub struct Uses<'a> {
    /// The use that the first word is, where it is one.
    pub first: Option<Site>,
    /// The use that the second word is, where it is one.
    pub second: Option<Site>,
    /// The table, where there is one.
    pub table: Option<Table<'a>>,
}

/// The use that a load of a literal is, where a label says its place, or the literal is a constant.
#[inline(always)]
fn literal_site(label: MemLabel) -> Option<Site>
    ensures { result ≡ cells.literal_site label }
{
    let target = match label {
        MemLabel::PCRel(_) => return None,
        MemLabel::Mach(label) => Target::Label(label),
        MemLabel::Pool(addr) => Target::Constant(addr),
    };
    Some(Site {
        kind: LabelUse::Ldr19,
        target,
    })
}

/// What an access in a mode leads to, where it is a use.
#[inline(always)]
pub fn mode_target(mem: &AMode) -> Option<Target>
    ensures { option_map cells.literal_use result ≡ cells.mode_site mem.now }
{
    match *mem {
        AMode::Label {
            label: MemLabel::Mach(label),
        } => Some(Target::Label(label)),
        AMode::Label {
            label: MemLabel::Pool(constant),
        }
        | AMode::Const { addr: constant } => Some(Target::Constant(constant)),
        _ => None,
    }
}

/// The use that an access in a mode is, where it is one.
#[inline(always)]
pub fn mode_site(mem: &AMode) -> Option<Site>
    ensures { result ≡ cells.mode_site mem.now }
{
    match *mem {
        AMode::Label { label } => literal_site(label),
        AMode::Const { addr } => literal_site(MemLabel::Pool(addr)),
        _ => None,
    }
}
