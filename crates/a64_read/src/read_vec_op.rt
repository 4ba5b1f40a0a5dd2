//! Reads operators of vector instructions by their kinds.

ghost use Rattle.a64_read.specs.Values.{ReadsKind};

use a64_ops::{VecALUOp, VecMisc2};
use a64_tokens::named::read_named;
use a64_tokens::value::{Kind, Value};
use a64_tokens::vec_op::{VecOp, VecOpKind};
use a64_tokens::vector_operator::{
    read_vec_alu_mod_op, read_vec_extend_op, read_vec_lanes_op, read_vec_pair_op,
    read_vec_rr_long_op, read_vec_rr_narrow_op, read_vec_rr_pair_long_op, read_vec_rrr_long_mod_op,
    read_vec_rrr_long_op, read_vec_shift_imm_mod_op, read_vec_shift_imm_op,
};

/// Reads an operator on two vectors.
#[tactic(auto, unfolding(crate::specs::Values::ReadsKind))]
fn vec_alu_op(token: &[u8]) -> Option<Value<'_>>
    ensures { ReadsKind (Kind.VecOp VecOpKind.Alu) token.now result }
{
    Some(Value::VecOp(VecOp::Alu(read_named::<VecALUOp>(token)?)))
}

/// Reads an operator on two vectors and the register of its result.
#[tactic(auto, unfolding(crate::specs::Values::ReadsKind))]
fn vec_alu_mod_op(token: &[u8]) -> Option<Value<'_>>
    ensures { ReadsKind (Kind.VecOp VecOpKind.AluMod) token.now result }
{
    Some(Value::VecOp(VecOp::AluMod(read_vec_alu_mod_op(token)?)))
}

/// Reads an operator on one vector.
#[tactic(auto, unfolding(crate::specs::Values::ReadsKind))]
fn vec_misc2(token: &[u8]) -> Option<Value<'_>>
    ensures { ReadsKind (Kind.VecOp VecOpKind.Misc2) token.now result }
{
    Some(Value::VecOp(VecOp::Misc2(read_named::<VecMisc2>(token)?)))
}

/// Reads an operator over the lanes of one vector.
#[tactic(auto, unfolding(crate::specs::Values::ReadsKind))]
fn vec_lanes_op(token: &[u8]) -> Option<Value<'_>>
    ensures { ReadsKind (Kind.VecOp VecOpKind.Lanes) token.now result }
{
    Some(Value::VecOp(VecOp::Lanes(read_vec_lanes_op(token)?)))
}

/// Reads an extension of lanes.
#[tactic(auto, unfolding(crate::specs::Values::ReadsKind))]
fn vec_extend_op(token: &[u8]) -> Option<Value<'_>>
    ensures { ReadsKind (Kind.VecOp VecOpKind.Extend) token.now result }
{
    Some(Value::VecOp(VecOp::Extend(read_vec_extend_op(token)?)))
}

/// Reads an operator on one vector whose lanes become twice as long.
#[tactic(auto, unfolding(crate::specs::Values::ReadsKind))]
fn vec_rr_long_op(token: &[u8]) -> Option<Value<'_>>
    ensures { ReadsKind (Kind.VecOp VecOpKind.RRLong) token.now result }
{
    Some(Value::VecOp(VecOp::RRLong(read_vec_rr_long_op(token)?)))
}

/// Reads an operator on one vector whose lanes become half as long.
#[tactic(auto, unfolding(crate::specs::Values::ReadsKind))]
fn vec_rr_narrow_op(token: &[u8]) -> Option<Value<'_>>
    ensures { ReadsKind (Kind.VecOp VecOpKind.RRNarrow) token.now result }
{
    Some(Value::VecOp(VecOp::RRNarrow(read_vec_rr_narrow_op(token)?)))
}

/// Reads an operator on the two lanes of one vector.
#[tactic(auto, unfolding(crate::specs::Values::ReadsKind))]
fn vec_pair_op(token: &[u8]) -> Option<Value<'_>>
    ensures { ReadsKind (Kind.VecOp VecOpKind.Pair) token.now result }
{
    Some(Value::VecOp(VecOp::Pair(read_vec_pair_op(token)?)))
}

/// Reads an operator on each two lanes of one vector.
#[tactic(auto, unfolding(crate::specs::Values::ReadsKind))]
fn vec_rr_pair_long_op(token: &[u8]) -> Option<Value<'_>>
    ensures { ReadsKind (Kind.VecOp VecOpKind.RRPairLong) token.now result }
{
    Some(Value::VecOp(VecOp::RRPairLong(read_vec_rr_pair_long_op(token)?)))
}

/// Reads an operator on two vectors whose lanes become twice as long.
#[tactic(auto, unfolding(crate::specs::Values::ReadsKind))]
fn vec_rrr_long_op(token: &[u8]) -> Option<Value<'_>>
    ensures { ReadsKind (Kind.VecOp VecOpKind.RRRLong) token.now result }
{
    Some(Value::VecOp(VecOp::RRRLong(read_vec_rrr_long_op(token)?)))
}

/// Reads an operator on two vectors that adds to lanes twice as long.
#[tactic(auto, unfolding(crate::specs::Values::ReadsKind))]
fn vec_rrr_long_mod_op(token: &[u8]) -> Option<Value<'_>>
    ensures { ReadsKind (Kind.VecOp VecOpKind.RRRLongMod) token.now result }
{
    Some(Value::VecOp(VecOp::RRRLongMod(read_vec_rrr_long_mod_op(token)?)))
}

/// Reads a shift of lanes by a number.
#[tactic(auto, unfolding(crate::specs::Values::ReadsKind))]
fn vec_shift_imm_op(token: &[u8]) -> Option<Value<'_>>
    ensures { ReadsKind (Kind.VecOp VecOpKind.ShiftImm) token.now result }
{
    Some(Value::VecOp(VecOp::ShiftImm(read_vec_shift_imm_op(token)?)))
}

/// Reads a shift of lanes by a number that keeps some bits of its result.
#[tactic(auto, unfolding(crate::specs::Values::ReadsKind))]
fn vec_shift_imm_mod_op(token: &[u8]) -> Option<Value<'_>>
    ensures { ReadsKind (Kind.VecOp VecOpKind.ShiftImmMod) token.now result }
{
    Some(Value::VecOp(VecOp::ShiftImmMod(read_vec_shift_imm_mod_op(token)?)))
}

/// The operator of this kind that the token is.
pub fn read_vec_op(kind: VecOpKind, token: &[u8]) -> Option<Value<'_>>
    ensures { ReadsKind (Kind.VecOp kind) token.now result }
{
    match kind {
        VecOpKind::Alu => vec_alu_op(token),
        VecOpKind::AluMod => vec_alu_mod_op(token),
        VecOpKind::Misc2 => vec_misc2(token),
        VecOpKind::Lanes => vec_lanes_op(token),
        VecOpKind::Extend => vec_extend_op(token),
        VecOpKind::RRLong => vec_rr_long_op(token),
        VecOpKind::RRNarrow => vec_rr_narrow_op(token),
        VecOpKind::Pair => vec_pair_op(token),
        VecOpKind::RRPairLong => vec_rr_pair_long_op(token),
        VecOpKind::RRRLong => vec_rrr_long_op(token),
        VecOpKind::RRRLongMod => vec_rrr_long_mod_op(token),
        VecOpKind::ShiftImm => vec_shift_imm_op(token),
        VecOpKind::ShiftImmMod => vec_shift_imm_mod_op(token),
    }
}
