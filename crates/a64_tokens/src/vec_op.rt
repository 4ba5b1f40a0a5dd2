//! The operators of vector instructions, as fields.

use a64_ops::{
    VecALUModOp, VecALUOp, VecExtendOp, VecLanesOp, VecMisc2, VecPairOp, VecRRLongOp,
    VecRRNarrowOp, VecRRPairLongOp, VecRRRLongModOp, VecRRRLongOp, VecShiftImmModOp, VecShiftImmOp,
};

/// Which operator a field is.
#[derive(Clone, Copy)]
pub enum VecOpKind {
    /// An operator on two vectors.
    Alu,
    /// An operator on two vectors and the register of its result.
    AluMod,
    /// An operator on one vector.
    Misc2,
    /// An operator over the lanes of one vector.
    Lanes,
    /// An extension of lanes.
    Extend,
    /// An operator on one vector whose lanes become twice as long.
    RRLong,
    /// An operator on one vector whose lanes become half as long.
    RRNarrow,
    /// An operator on the two lanes of one vector.
    Pair,
    /// An operator on each two neighbouring lanes of one vector.
    RRPairLong,
    /// An operator on two vectors whose lanes become twice as long.
    RRRLong,
    /// An operator on two vectors that adds to lanes twice as long.
    RRRLongMod,
    /// A shift of lanes by a number.
    ShiftImm,
    /// A shift of lanes by a number that keeps some bits of its result.
    ShiftImmMod,
}

/// An operator of a vector instruction.
#[derive(Clone, Copy)]
pub enum VecOp {
    /// An operator on two vectors.
    Alu(VecALUOp),
    /// An operator on two vectors and the register of its result.
    AluMod(VecALUModOp),
    /// An operator on one vector.
    Misc2(VecMisc2),
    /// An operator over the lanes of one vector.
    Lanes(VecLanesOp),
    /// An extension of lanes.
    Extend(VecExtendOp),
    /// An operator on one vector whose lanes become twice as long.
    RRLong(VecRRLongOp),
    /// An operator on one vector whose lanes become half as long.
    RRNarrow(VecRRNarrowOp),
    /// An operator on the two lanes of one vector.
    Pair(VecPairOp),
    /// An operator on each two neighbouring lanes of one vector.
    RRPairLong(VecRRPairLongOp),
    /// An operator on two vectors whose lanes become twice as long.
    RRRLong(VecRRRLongOp),
    /// An operator on two vectors that adds to lanes twice as long.
    RRRLongMod(VecRRRLongModOp),
    /// A shift of lanes by a number.
    ShiftImm(VecShiftImmOp),
    /// A shift of lanes by a number that keeps some bits of its result.
    ShiftImmMod(VecShiftImmModOp),
}
