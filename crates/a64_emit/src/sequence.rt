//! Emission of sequences around tables, symbols and the stack, of loops of atomic accesses, and of selects of vectors.

ghost use Rattle.std.specs.Prelude.{◌≡◌, [], ◌∷◌, map, true, None, Some};
ghost use Rattle.a64_base.specs.declared.entity.Reloc.TheVariants.{Abs8};
ghost use Rattle.a64_inst.specs.declared.group.Group.TheVariants.{Sequence};
ghost use Rattle.a64_operand.specs.declared.virtuals.VirtualRegisters.TheVariants.{Refused};
ghost use Rattle.a64_operand.specs.AtomicOperands.{is_atomic_type};
ghost use Rattle.a64_inst.specs.Faults.{has_operands};
ghost use Rattle.a64_inst.specs.Groups.{group_of};
ghost use Rattle.a64_operand.specs.Operands.{is_register};
ghost use Rattle.a64_inst.specs.SequenceOperands.{are_table_operands, are_probe_operands};
ghost use Rattle.a64_operand.specs.VectorOperands.{are_select_operands};
ghost use Rattle.a64_cells.specs.Shapes.{Data, plain, data_cell, reloc_cell, entry_site, table_labels, table_cells, table_jump, got_cells, near_cells, far_cells, probe_forms, vector_select_forms, cas_loop_cells, rmw_loop_cells};
ghost use Rattle.a64_cells.specs.Words.{put_cell, as_put, put_for, put_loop, put_rest};
ghost use Rattle.a64_emit.specs.Emission.{CanPut, PutsCells};

use crate::emit::{emit_last, emit_several, put_reloc, put_using, put_words};
use a64_base::{Cond, ExternalName, IrType, MachLabel, Reg, Reloc, TrapCode, Writable};
use a64_buffer::{MachBuffer, Target};
use a64_cells::Site;
use a64_cells::word::exclusive::{LoopWords, cas_loop_words, rmw_loop_words};
use a64_cells::word::sequence::{
    far_words, offset_entry_word, page_word, place_word, probe_words, table_words,
    vector_select_words,
};
use a64_imms::Imm12;
use a64_inst::{AtomicRMWLoopOp, EmitInfo, FrameLayout, Inst};
use a64_label_use::LabelUse;
use std::alloc::AllocError;

/// An entry of a table that stands so many bytes behind the first: the word, and its use of the label.
#[inline(always)]
fn put_entry(
    sink: &mut MachBuffer<'_, LabelUse>,
    distance: u32,
    label: MachLabel,
) -> Result<(), AllocError>
    requires { CanPut sink.old (put_cell distance (Some (entry_site label)) None ∷ []) }
    ensures { PutsCells result sink.old sink.new
        (put_cell distance (Some (entry_site label)) None ∷ []) }
{
    let site = Site {
        kind: LabelUse::PCRel32,
        target: Target::Label(label),
    };
    put_using(sink, distance, site, None)
}

/// The entries of a table for its targets.
fn put_targets(sink: &mut MachBuffer<'_, LabelUse>, targets: &[MachLabel]) -> Result<(), AllocError>
    requires { CanPut sink.old (table_cells 0 targets.now) }
    ensures { PutsCells result sink.old sink.new (table_cells 0 targets.now) }
{
    let mut distance = 0;
    for label in targets {
        put_entry(sink, distance, *label)?;
        distance += 4;
    }
    Ok(())
}

/// A table: the entries of its targets, and behind them that of the default.
fn put_table(
    sink: &mut MachBuffer<'_, LabelUse>,
    default: MachLabel,
    targets: &[MachLabel],
) -> Result<(), AllocError>
    requires { CanPut sink.old (table_cells 0 (table_labels default targets.now)) }
    ensures { PutsCells result sink.old sink.new
        (table_cells 0 (table_labels default targets.now)) }
{
    put_targets(sink, targets)?;
    put_entry(sink, 4 * targets.len() as u32, default)
}

/// A jump through a table, and the table behind it.
fn emit_table(
    sink: &mut MachBuffer<'_, LabelUse>,
    info: &EmitInfo,
    default: MachLabel,
    targets: &[MachLabel],
    ridx: Reg,
    rtmp1: Writable<Reg>,
    rtmp2: Writable<Reg>,
) -> Result<(), AllocError>
    requires good { are_table_operands Refused ridx rtmp1 rtmp2 ≡ true }
    requires can { CanPut sink.old
        (map as_put (table_jump info.now default targets.now ridx rtmp1 rtmp2)) }
    ensures { PutsCells result sink.old sink.new
        (map as_put (table_jump info.now default targets.now ridx rtmp1 rtmp2)) }
{
    let words = table_words(info, targets.len() as u64, ridx, rtmp1, rtmp2);
    put_words(sink, words.as_slice())?;
    put_table(sink, default, targets)
}

/// Two words without uses, at each of which a relocation for one symbol is recorded.
fn put_two_relocs(
    sink: &mut MachBuffer<'_, LabelUse>,
    first: (u32, Reloc),
    second: (u32, Reloc),
    name: ExternalName,
    addend: i64,
) -> Result<(), AllocError>
    requires { CanPut sink.old
        (reloc_cell (Data first.0) first.1 name addend
        ∷ reloc_cell (Data second.0) second.1 name addend ∷ []) }
    ensures { PutsCells result sink.old sink.new
        (reloc_cell (Data first.0) first.1 name addend
        ∷ reloc_cell (Data second.0) second.1 name addend ∷ []) }
{
    put_reloc(sink, first.0, first.1, name, addend)?;
    put_reloc(sink, second.0, second.1, name, addend)
}

/// The address of a symbol, from the global offset table.
fn emit_got(
    sink: &mut MachBuffer<'_, LabelUse>,
    rd: Writable<Reg>,
    name: ExternalName,
) -> Result<(), AllocError>
    requires good { is_register Refused rd ≡ true }
    requires can { CanPut sink.old (map as_put (got_cells rd name)) }
    ensures { PutsCells result sink.old sink.new (map as_put (got_cells rd name)) }
{
    let page = (page_word(rd), Reloc::Aarch64AdrGotPage21);
    let entry = (offset_entry_word(rd), Reloc::Aarch64Ld64GotLo12Nc);
    put_two_relocs(sink, page, entry, name, 0)
}

/// The address of a symbol within 4 GiB of the code, so many bytes behind it.
fn emit_near(
    sink: &mut MachBuffer<'_, LabelUse>,
    rd: Writable<Reg>,
    name: ExternalName,
    offset: i64,
) -> Result<(), AllocError>
    requires good { is_register Refused rd ≡ true }
    requires can { CanPut sink.old (map as_put (near_cells rd name offset)) }
    ensures { PutsCells result sink.old sink.new (map as_put (near_cells rd name offset)) }
{
    let page = (page_word(rd), Reloc::Aarch64AdrPrelPgHi21);
    let place = (place_word(rd), Reloc::Aarch64AddAbsLo12Nc);
    put_two_relocs(sink, page, place, name, offset)
}

/// Eight bytes for the address of a symbol, which is not known yet.
fn put_address(
    sink: &mut MachBuffer<'_, LabelUse>,
    name: ExternalName,
    offset: i64,
) -> Result<(), AllocError>
    requires { CanPut sink.old (reloc_cell (Data 0) Abs8 name offset ∷ data_cell 0 ∷ []) }
    ensures { PutsCells result sink.old sink.new
        (reloc_cell (Data 0) Abs8 name offset ∷ data_cell 0 ∷ []) }
{
    put_reloc(sink, 0, Reloc::Abs8, name, offset)?;
    emit_last(sink, 0, None, None)
}

/// The address of a symbol anywhere, so many bytes behind it, in eight bytes of the code.
fn emit_far(
    sink: &mut MachBuffer<'_, LabelUse>,
    rd: Writable<Reg>,
    name: ExternalName,
    offset: i64,
) -> Result<(), AllocError>
    requires good { is_register Refused rd ≡ true }
    requires can { CanPut sink.old (map as_put (far_cells rd name offset)) }
    ensures { PutsCells result sink.old sink.new (map as_put (far_cells rd name offset)) }
{
    put_words(sink, far_words(rd).as_slice())?;
    put_address(sink, name, offset)
}

/// A loop that stores to the stack at each step.
fn emit_probe(
    sink: &mut MachBuffer<'_, LabelUse>,
    info: &EmitInfo,
    start: Writable<Reg>,
    end: Reg,
    step: Imm12,
) -> Result<(), AllocError>
    requires good { are_probe_operands info.now Refused start end step ≡ true }
    requires can { CanPut sink.old (map as_put (map plain (probe_forms start end step))) }
    ensures { PutsCells result sink.old sink.new
        (map as_put (map plain (probe_forms start end step))) }
{
    put_words(sink, probe_words(info, start, end, step).as_slice())
}

/// A select of one of two vectors.
fn emit_vector_select(
    sink: &mut MachBuffer<'_, LabelUse>,
    rd: Writable<Reg>,
    rn: Reg,
    rm: Reg,
    cond: Cond,
) -> Result<(), AllocError>
    requires good { are_select_operands Refused rd rn rm ≡ true }
    requires can { CanPut sink.old (map as_put (map plain (vector_select_forms rd rn rm cond))) }
    ensures { PutsCells result sink.old sink.new
        (map as_put (map plain (vector_select_forms rd rn rm cond))) }
{
    put_words(sink, vector_select_words(rd, rn, rm, cond).as_slice())
}

/// The store of a loop, with the words before it, and the branch back.
fn put_rest(sink: &mut MachBuffer<'_, LabelUse>, words: &LoopWords) -> Result<(), AllocError>
    requires site { words.now.store.site ≡ None }
    requires can { CanPut sink.old (put_rest words.now) }
    ensures { PutsCells result sink.old sink.new (put_rest words.now) }
{
    emit_several(sink, &words.store)?;
    emit_last(sink, words.back, None, None)
}

/// A loop of an exclusive load and an exclusive store.
#[inline(never)]
fn emit_loop(sink: &mut MachBuffer<'_, LabelUse>, words: &LoopWords) -> Result<(), AllocError>
    requires site { words.now.store.site ≡ None }
    requires can { CanPut sink.old (put_loop words.now) }
    ensures { PutsCells result sink.old sink.new (put_loop words.now) }
{
    emit_last(sink, words.load, None, words.load_trap)?;
    put_rest(sink, words)
}

/// An atomic operation as a loop.
fn emit_rmw_loop(
    sink: &mut MachBuffer<'_, LabelUse>,
    ty: IrType,
    op: AtomicRMWLoopOp,
    trap: Option<TrapCode>,
) -> Result<(), AllocError>
    requires ty { is_atomic_type ty ≡ true }
    requires can { CanPut sink.old (map as_put (rmw_loop_cells ty op trap)) }
    ensures { PutsCells result sink.old sink.new (map as_put (rmw_loop_cells ty op trap)) }
{
    emit_loop(sink, &rmw_loop_words(ty, op, trap))
}

/// A compare and swap as a loop.
fn emit_cas_loop(
    sink: &mut MachBuffer<'_, LabelUse>,
    ty: IrType,
    trap: Option<TrapCode>,
) -> Result<(), AllocError>
    requires ty { is_atomic_type ty ≡ true }
    requires can { CanPut sink.old (map as_put (cas_loop_cells ty trap)) }
    ensures { PutsCells result sink.old sink.new (map as_put (cas_loop_cells ty trap)) }
{
    emit_loop(sink, &cas_loop_words(ty, trap))
}

/// A sequence around a table, a symbol or the stack, a loop of atomic accesses, a select of vectors, or
/// nothing for what has no word.
#[tactic(auto, using(a64_cells::proofs::SequenceOperands::loop_type, a64_cells::proofs::SequenceOperands::cas_loop_type))]
#[inline(never)]
pub fn emit_sequence(
    inst: &Inst,
    sink: &mut MachBuffer<'_, LabelUse>,
    info: &EmitInfo,
    _frame: &FrameLayout,
) -> Result<(), AllocError>
    requires group { group_of inst.now ≡ Sequence }
    requires good { has_operands _frame.now info.now Refused inst.now ≡ true }
    requires can { CanPut sink.old (put_for _frame.now info.now inst.now) }
    ensures { PutsCells result sink.old sink.new (put_for _frame.now info.now inst.now) }
{
    match inst {
        Inst::JTSequence {
            default,
            targets,
            ridx,
            rtmp1,
            rtmp2,
        } => emit_table(
            sink,
            info,
            *default,
            targets.as_slice(),
            *ridx,
            *rtmp1,
            *rtmp2,
        ),
        Inst::LoadExtNameGot { rd, name } => emit_got(sink, *rd, *name),
        Inst::LoadExtNameNear { rd, name, offset } => emit_near(sink, *rd, *name, *offset),
        Inst::LoadExtNameFar { rd, name, offset } => emit_far(sink, *rd, *name, *offset),
        Inst::StackProbeLoop { start, end, step } => emit_probe(sink, info, *start, *end, *step),
        Inst::VecCSel { rd, rn, rm, cond } => emit_vector_select(sink, *rd, *rn, *rm, *cond),
        Inst::AtomicRMWLoop { ty, op, flags, .. } => {
            emit_rmw_loop(sink, *ty, *op, flags.trap_code())
        }
        Inst::AtomicCASLoop { ty, flags, .. } => emit_cas_loop(sink, *ty, flags.trap_code()),
        _ => Ok(()),
    }
}
