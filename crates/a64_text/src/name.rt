// Written by `python3 tools/instructions.py` from tables/instructions.txt.
//! The names with which lines begin.

use a64_inst::AccessOp;

/// The name of an integer operation with an immediate.
#[derive(Clone, Copy)]
pub enum ImmediateName {
    /// `Adr`.
    Adr,
    /// `Adrp`.
    Adrp,
    /// `AluRRImm12`.
    AluRRImm12,
    /// `AluRRImmLogic`.
    AluRRImmLogic,
    /// `MovWide`.
    MovWide,
    /// `MovK`.
    MovK,
    /// `AluRRImmShift`.
    AluRRImmShift,
    /// `Extend`.
    Extend,
    /// `BitfieldMove`.
    BitfieldMove,
    /// `BitfieldMoveMod`.
    BitfieldMoveMod,
}

/// The name of an integer operation on registers.
#[derive(Clone, Copy)]
pub enum RegisterName {
    /// `AluRRR`.
    AluRRR,
    /// `BitRR`.
    BitRR,
    /// `AluRRRShift`.
    AluRRRShift,
    /// `Mov`.
    Mov,
    /// `MovFromPReg`.
    MovFromPReg,
    /// `MovToPReg`.
    MovToPReg,
    /// `AluRRRExtend`.
    AluRRRExtend,
    /// `CCmp`.
    CCmp,
    /// `CCmpImm`.
    CCmpImm,
    /// `CSel`.
    CSel,
    /// `CSet`.
    CSet,
    /// `CSetm`.
    CSetm,
    /// `CSNeg`.
    CSNeg,
    /// `AluRRRR`.
    AluRRRR,
}

/// The name of an operation on scalar floats.
#[derive(Clone, Copy)]
pub enum FloatName {
    /// `FpuMoveFromVec`.
    FpuMoveFromVec,
    /// `FpuRRI`.
    FpuRRI,
    /// `FpuRRIMod`.
    FpuRRIMod,
    /// `FpuMove128`.
    FpuMove128,
    /// `FpuToInt`.
    FpuToInt,
    /// `IntToFpu`.
    IntToFpu,
    /// `MovToFpu`.
    MovToFpu,
    /// `FpuMove32`.
    FpuMove32,
    /// `FpuMove64`.
    FpuMove64,
    /// `FpuExtend`.
    FpuExtend,
    /// `FpuRR`.
    FpuRR,
    /// `FpuRound`.
    FpuRound,
    /// `FpuCmp`.
    FpuCmp,
    /// `FpuMoveFPImm`.
    FpuMoveFPImm,
    /// `FpuRRR`.
    FpuRRR,
    /// `FpuCSel16`.
    FpuCSel16,
    /// `FpuCSel32`.
    FpuCSel32,
    /// `FpuCSel64`.
    FpuCSel64,
    /// `FpuRRRR`.
    FpuRRRR,
}

/// The name of an operation on vectors.
#[derive(Clone, Copy)]
pub enum VectorName {
    /// `VecRRPair`.
    VecRRPair,
    /// `VecMisc`.
    VecMisc,
    /// `VecRRLong`.
    VecRRLong,
    /// `VecRRNarrowLow`.
    VecRRNarrowLow,
    /// `VecRRNarrowHigh`.
    VecRRNarrowHigh,
    /// `VecRRPairLong`.
    VecRRPairLong,
    /// `VecLanes`.
    VecLanes,
    /// `VecRRRLong`.
    VecRRRLong,
    /// `VecRRRLongMod`.
    VecRRRLongMod,
    /// `VecRRR`.
    VecRRR,
    /// `VecRRRMod`.
    VecRRRMod,
    /// `VecExtend`.
    VecExtend,
    /// `VecShiftImm`.
    VecShiftImm,
    /// `VecShiftImmMod`.
    VecShiftImmMod,
    /// `VecFmlaElem`.
    VecFmlaElem,
}

/// The name of a move of lanes, or a table of bytes.
#[derive(Clone, Copy)]
pub enum VectorMoveName {
    /// `VecTbl`.
    VecTbl,
    /// `VecTblExt`.
    VecTblExt,
    /// `VecTbl2`.
    VecTbl2,
    /// `VecTbl2Ext`.
    VecTbl2Ext,
    /// `VecExtract`.
    VecExtract,
    /// `VecDupFromFpu`.
    VecDupFromFpu,
    /// `VecDup`.
    VecDup,
    /// `MovFromVecSigned`.
    MovFromVecSigned,
    /// `MovFromVec`.
    MovFromVec,
    /// `MovToVec`.
    MovToVec,
    /// `VecMovElement`.
    VecMovElement,
    /// `VecDupFPImm`.
    VecDupFPImm,
    /// `VecDupImm`.
    VecDupImm,
}

/// The name of a hint, a barrier, or an access to the flags.
#[derive(Clone, Copy)]
pub enum SystemName {
    /// `Xpaclri`.
    Xpaclri,
    /// `Csdb`.
    Csdb,
    /// `Paci`.
    Paci,
    /// `Bti`.
    Bti,
    /// `Fence`.
    Fence,
    /// `Nop4`.
    Nop4,
    /// `MovToNZCV`.
    MovToNZCV,
    /// `MovFromNZCV`.
    MovFromNZCV,
    /// `Nop0`.
    Nop0,
}

/// The name of a branch or another instruction of control.
#[derive(Clone, Copy)]
pub enum ControlName {
    /// `Udf`.
    Udf,
    /// `CondBr`.
    CondBr,
    /// `TrapIf`.
    TrapIf,
    /// `Brk`.
    Brk,
    /// `IndirectBr`.
    IndirectBr,
    /// `Ret`.
    Ret,
    /// `AuthenticatedRet`.
    AuthenticatedRet,
    /// `Jump`.
    Jump,
    /// `TestBitAndBranch`.
    TestBitAndBranch,
    /// `LabelAddress`.
    LabelAddress,
    /// `Word4`.
    Word4,
    /// `Word8`.
    Word8,
    /// `EmitIsland`.
    EmitIsland,
}

/// The name of a sequence around a table, a symbol or the stack, or what has no word.
#[derive(Clone, Copy)]
pub enum SequenceName {
    /// `Args`.
    Args,
    /// `Rets`.
    Rets,
    /// `DummyUse`.
    DummyUse,
    /// `SequencePoint`.
    SequencePoint,
    /// `JTSequence`.
    JTSequence,
    /// `LoadExtNameGot`.
    LoadExtNameGot,
    /// `LoadExtNameNear`.
    LoadExtNameNear,
    /// `LoadExtNameFar`.
    LoadExtNameFar,
    /// `StackProbeLoop`.
    StackProbeLoop,
    /// `VecCSel`.
    VecCSel,
}

/// The name of a call, or a return that calls.
#[derive(Clone, Copy)]
pub enum CallName {
    /// `Call`.
    Call,
    /// `CallInd`.
    CallInd,
    /// `ReturnCall`.
    ReturnCall,
    /// `ReturnCallInd`.
    ReturnCallInd,
}

/// The name of a load or a store of a pair of registers.
#[derive(Clone, Copy)]
pub enum PairName {
    /// `StoreP64`.
    StoreP64,
    /// `LoadP64`.
    LoadP64,
    /// `FpuStoreP64`.
    FpuStoreP64,
    /// `FpuLoadP64`.
    FpuLoadP64,
    /// `FpuStoreP128`.
    FpuStoreP128,
    /// `FpuLoadP128`.
    FpuLoadP128,
}

/// The name of an instruction of memory that is no load or store of one register.
#[derive(Clone, Copy)]
pub enum MemoryName {
    /// `AtomicRMWLoop`.
    AtomicRMWLoop,
    /// `AtomicCASLoop`.
    AtomicCASLoop,
    /// `AtomicCAS128`.
    AtomicCAS128,
    /// `VecLoadReplicate`.
    VecLoadReplicate,
    /// `StoreRelease`.
    StoreRelease,
    /// `LoadAcquire`.
    LoadAcquire,
    /// `AtomicCAS`.
    AtomicCAS,
    /// `AtomicRMW`.
    AtomicRMW,
    /// `LoadAddr`.
    LoadAddr,
}

/// The name with which a line begins.
#[derive(Clone, Copy)]
pub enum Name {
    /// An integer operation with an immediate.
    Immediate(ImmediateName),
    /// An integer operation on registers.
    Register(RegisterName),
    /// An operation on scalar floats.
    Float(FloatName),
    /// An operation on vectors.
    Vector(VectorName),
    /// A move of lanes, or a table of bytes.
    VectorMove(VectorMoveName),
    /// A hint, a barrier, or an access to the flags.
    System(SystemName),
    /// A branch or another instruction of control.
    Control(ControlName),
    /// A sequence around a table, a symbol or the stack, or what has no word.
    Sequence(SequenceName),
    /// A call, or a return that calls.
    Call(CallName),
    /// A load or a store of a pair of registers.
    Pair(PairName),
    /// An instruction of memory that is no load or store of one register.
    Memory(MemoryName),
    /// A load or store of one register.
    Access(AccessOp),
    /// `bind`.
    Bind,
    /// `const`.
    Const,
    /// `frame`.
    Frame,
    /// `flag`.
    Flag,
}
