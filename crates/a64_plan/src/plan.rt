//! The plan of a constant.

ghost use Rattle.std.specs.Prelude.{◌≡◌, ◌<◌, ◌≤◌, length, [], ◌∷◌};
ghost use Rattle.a64_imms.specs.MoveWides.{halfword};
ghost use Rattle.a64_plan.specs.Shapes.{halfword_count, IsShape, Leave, NoneFewer};
ghost use Rattle.a64_plan.specs.Plans.{count, given, places, takes_movn, move_at, moves_at, moves_of, moves_size};
ghost use Rattle.a64_plan.specs.Plans.{alone_or, has_two_moves, narrow_logic_of, plan_of, plan_without_narrow};

use crate::step::ConstStep;
use a64_base::{IrType, OperandSize};
use a64_imms::{ImmLogic, MoveWideConst};
use arrayvec::ArrayVec;

/// The number of halfwords of a size.
fn halfwords_of(size: OperandSize) -> u8
    ensures { result ≡ halfword_count size }
{
    size.bits() / 16
}

/// A halfword of a value, counted from the lowest.
fn halfword_of(value: u64, shift: u8) -> u16
    requires { shift < 4 }
    ensures { result ≡ halfword shift value }
{
    ((value >> (16 * shift)) % (1 << 16)) as u16
}

/// How many halfwords of a size are these bits in a value.
fn count_of(bits: u16, value: u64, size: OperandSize) -> u8
    ensures { result ≡ count bits value (halfword_count size) }
{
    let mut count = 0;
    for shift in 0..halfwords_of(size) {
        if halfword_of(value, shift) == bits {
            count += 1;
        }
    }
    count
}

/// The bits of the halfwords that a first move gives without naming them.
fn given_by(negated: bool) -> u16
    ensures { result ≡ given negated }
{
    if negated { u16::MAX } else { 0 }
}

/// The move that gives a halfword of the value, as the first move or as a further one.
fn move_giving(is_first: bool, size: OperandSize, negated: bool, value: u64, shift: u8) -> ConstStep
    requires { shift < 4 }
    ensures { result ≡ move_at is_first size negated value shift }
{
    let bits = halfword_of(value, shift);
    match (is_first, negated) {
        (false, _) => ConstStep::MovK(MoveWideConst { bits, shift }, size),
        (true, false) => ConstStep::MovZ(MoveWideConst { bits, shift }, size),
        (true, true) => ConstStep::MovN(MoveWideConst { bits: !bits, shift }, size),
    }
}

/// Makes of no steps the moves that give a value at a size, the first one a `movn` or else a
/// `movz`.
fn push_moves_beginning(
    steps: &mut ArrayVec<ConstStep, 4>,
    negated: bool,
    size: OperandSize,
    value: u64,
)
    requires { steps.old.items ≡ [] }
    ensures { steps.new.items
        ≡ moves_at size negated value (places negated value (halfword_count size)) }
{
    let given = given_by(negated);
    for shift in 0..halfwords_of(size) {
        if halfword_of(value, shift) == given {
            continue;
        }
        let is_first = steps.is_empty();
        steps.push(move_giving(is_first, size, negated, value, shift));
    }
}

/// Whether the moves of a value at a size begin with a `movn`.
fn begins_negated(size: OperandSize, value: u64) -> bool
    ensures { result ≡ takes_movn size value }
{
    count_of(u16::MAX, value, size) > count_of(0, value, size)
}

/// Makes of no steps the moves that give a value.
///
/// They are pushed into one list, by a function out of line: lists that join behind an `if` are
/// copied, and a value of one step would pay for the room of the moves.
#[inline(never)]
#[tactic(auto, unfolding(crate::specs::Plans::moves_of))]
fn push_moves(steps: &mut ArrayVec<ConstStep, 4>, value: u64)
    requires { steps.old.items ≡ [] }
    ensures { steps.new.items ≡ moves_of (moves_size value) value }
{
    let size = if value < 1 << 32 {
        OperandSize::Size32
    } else {
        OperandSize::Size64
    };
    push_moves_beginning(steps, begins_negated(size, value), size, value);
}

/// Whether the moves of a value are two of 32 bits: its upper half is zero, and of the two other
/// halfwords a first move gives neither. The halfwords tell it, so no move is made for that.
fn has_two_moves(value: u64) -> bool
    ensures { result ≡ has_two_moves value }
{
    if value >= 1 << 32 {
        return false;
    }
    count_of(0, value, OperandSize::Size32) == 0
        && count_of(u16::MAX, value, OperandSize::Size32) == 0
}

/// The immediate of an `orr` of 32 bits in the place of two moves.
fn narrow_logic(value: u64) -> Option<ImmLogic>
    ensures { result ≡ narrow_logic_of value }
{
    if has_two_moves(value) {
        ImmLogic::maybe_from_u64(value, IrType::I32)
    } else {
        None
    }
}

/// The step of a value that does alone, where its plan is not moves: it is of 64 bits, or one
/// `orr` of 32 bits in the place of two moves.
///
/// The `orr` of 32 bits is looked for behind the steps of 64 bits, so a value that one of these loads
/// keeps it, and a run is looked for a second time only where that saves a word.
#[tactic(auto, unfolding(crate::specs::Plans::plan_of))]
fn lone_step(value: u64) -> Option<ConstStep>
    ensures { plan_of value ≡ alone_or result (moves_of (moves_size value) value) }
{
    if let Some(imm) = MoveWideConst::maybe_from_u64(value) {
        Some(ConstStep::MovZ(imm, OperandSize::Size64))
    } else if let Some(imm) = MoveWideConst::maybe_from_u64(!value) {
        Some(ConstStep::MovN(imm, OperandSize::Size64))
    } else if let Some(imm) = ImmLogic::maybe_from_u64(value, IrType::I64) {
        Some(ConstStep::Orr(imm))
    } else if let Some(imm) = narrow_logic(value) {
        Some(ConstStep::Orr(imm))
    } else {
        None
    }
}

/// The plan of a value, as its definition has it.
fn plan(value: u64) -> ArrayVec<ConstStep, 4>
    ensures { result.items ≡ plan_of value }
{
    let mut steps = ArrayVec::new();
    match lone_step(value) {
        Some(step) => steps.push(step),
        None => push_moves(&mut steps, value),
    }
    steps
}

/// The shortest steps that leave a value in a register. They take no memory.
///
/// One `movz`, `movn` or `orr` of 64 bits where it can, and else a `movz` or `movn` with a `movk`
/// for each further halfword, at 32 bits where the upper half of the value is zero. Two moves of
/// 32 bits are one `orr` of 32 bits where there is one.
pub fn const_plan(value: u64) -> ArrayVec<ConstStep, 4>
    ensures shape { IsShape result.items }
    ensures value { Leave result.items value }
    ensures least { NoneFewer (length result.items) value }
    ensures few { length result.items ≤ 4 }
    ensures plan { result.items ≡ plan_of value }
    // An `orr` of 32 bits is taken only where it is shorter.
    ensures kept { length (plan_without_narrow value) ≡ 1
        → result.items ≡ plan_without_narrow value }
{
    plan(value)
}
