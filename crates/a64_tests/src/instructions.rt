//! Calls on instructions that no file makes: constants as instructions, final modes, and forms by
//! their types.

ghost use Rattle.std.specs.Prelude.{◌≡◌, true};
ghost use Rattle.a64_inst.specs.Accesses.{type_has_load_form};

use a64_base::{IrType, MemFlagsData, vreg, writable_vreg, writable_xreg, xreg};
use a64_inst::{AMode, EmitState, FrameLayout, Inst};
use a64_mode::mem_finalize;
use a64_print::push_inst;
use std::alloc::{AllocError, Global};
use std::test::Fail;

#[test]
fn an_offset_in_units_of_its_access(rt: HostRuntime) -> Result<(), Fail> {
    let alloc = rt.alloc();
    let state = EmitState::new(FrameLayout::none(alloc));
    let mem = AMode::RegOffset {
        rn: xreg(1),
        off: 256,
    };
    let (before, mode) = mem_finalize(alloc, true, &mem, IrType::I64, &state)?;
    assert!(rt; before.is_empty());
    let AMode::UnsignedOffset { rn, uimm12 } = mode else {
        return Err(AllocError.into());
    };
    assert_eq!(rt; (rn, uimm12.value(), uimm12.bits()), (xreg(1), 256, 32));
    Ok(())
}

/// A load of a type's value from a register's address.
fn load_of(ty: IrType) -> Inst
    requires { type_has_load_form ty ≡ true }
{
    let mem = AMode::reg(xreg(1));
    Inst::gen_load(writable_vreg(0), mem, ty, MemFlagsData::trusted())
}

/// A store of a type's value to a register's address.
fn store_of(ty: IrType) -> Inst
    requires { type_has_load_form ty ≡ true }
{
    let mem = AMode::reg(xreg(1));
    Inst::gen_store(mem, vreg(0), ty, MemFlagsData::trusted())
}

#[test]
fn loads_and_stores_by_types(rt: HostRuntime) -> Result<(), Fail> {
    for (ty, moved) in [
        (IrType::I8, IrType::I8),
        (IrType::I64, IrType::I64),
        (IrType::F16, IrType::F16),
        (IrType::F128, IrType::I8X16),
        (IrType::I8X2, IrType::F16),
        (IrType::F64X2, IrType::I8X16),
    ] {
        assert!(rt; Inst::has_load_form(ty), "{ty:?}");
        let load = load_of(ty);
        assert_eq!(rt; load.mem_type(), Some(moved), "{ty:?}");
        let store = store_of(ty);
        assert_eq!(rt; store.mem_type(), Some(moved), "{ty:?}");
    }
    for ty in [IrType::I128, IrType::I8X32] {
        assert!(rt; !Inst::has_load_form(ty), "{ty:?}");
    }
    Ok(())
}

/// The texts of instructions, with a semicolon behind each.
fn texts_of(alloc: Global, insts: &[Inst]) -> Result<String, AllocError> {
    let frame = FrameLayout::none(alloc);
    let mut texts = String::new(alloc);
    for inst in insts {
        push_inst(&mut texts, inst, &frame)?;
        texts.push_str("; ")?;
    }
    Ok(texts)
}

#[test]
fn constants_into_a_register(rt: HostRuntime) -> Result<(), Fail> {
    let alloc = rt.alloc();
    for (value, texts) in [
        (0, "movz x0, #0; "),
        (u64::MAX, "movn x0, #0; "),
        (0x1234_ffff, "movn w0, #60875, LSL #16; "),
        (0x5555_5555_5555_5555, "orr x0, xzr, #6148914691236517205; "),
        (0x5555_5555, "orr w0, wzr, #1431655765; "),
        (0xf00f_f00f, "orr w0, wzr, #4027576335; "),
        (0x00ff_ff00, "orr x0, xzr, #16776960; "),
        (
            0x1234_5678,
            "movz w0, #22136; movk w0, w0, #4660, LSL #16; ",
        ),
    ] {
        let insts = Inst::load_constant(alloc, writable_xreg(0), value)?;
        assert_eq!(rt; texts_of(alloc, insts.as_slice())?.as_str(), texts);
    }
    Ok(())
}
