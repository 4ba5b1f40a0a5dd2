//! Texts of immediates, and the values of those of vectors and floats.

use a64_base::{IrType, PrettyPrint, ScalarSize, Text};
use a64_imms::{
    ASIMDFPModImm, ASIMDMovModImm, FPULeftShiftImm, FPURightShiftImm, Imm12, ImmLogic, ImmShift,
    MoveWideConst, NZCV, SImm7Scaled, SImm9, UImm5, UImm6, UImm12Scaled,
};
use std::alloc::{AllocError, Global};
use std::test::Fail;

/// The bits, the shift, and whether ones are shifted in.
fn moved(value: u64, size: ScalarSize) -> Option<(u8, u8, bool)> {
    match ASIMDMovModImm::maybe_from_u64(value, size) {
        Some(imm) => Some((imm.imm, imm.shift, imm.shift_ones)),
        None => None,
    }
}

#[test]
fn vector_moves(rt: HostRuntime) -> Result<(), Fail> {
    for (value, size, want) in [
        (0xff, ScalarSize::Size32, Some((0, 8, true))),
        (0x42_ffff, ScalarSize::Size32, Some((66, 16, true))),
        (513, ScalarSize::Size16, None),
        // a value of each shape has a shift that goes by the size
        (0xff, ScalarSize::Size16, Some((255, 0, false))),
        (0xab00, ScalarSize::Size16, Some((171, 8, false))),
        (0xab00, ScalarSize::Size8, Some((0, 0, false))),
        (0xff00, ScalarSize::Size64, Some((2, 0, false))),
        (0, ScalarSize::Size128, None),
        (0xff00_00ff, ScalarSize::Size32, None),
        (0x80_0000, ScalarSize::Size64, None),
    ] {
        assert_eq!(rt; moved(value, size), want, "of {value:x}");
    }
    let zero = ASIMDMovModImm::zero(ScalarSize::Size64);
    assert_eq!(rt; zero.value(), (0, 0, false));
    Ok(())
}

#[test]
fn float_moves_and_shifts(rt: HostRuntime) -> Result<(), Fail> {
    for (value, size, want) in [
        (0, ScalarSize::Size32, None),
        (0x3c60_0000, ScalarSize::Size32, None),
        (0, ScalarSize::Size64, None),
        (0x40c3_8800_0000_0000, ScalarSize::Size64, None),
        (0x3f80_0000, ScalarSize::Size32, Some(112)),
    ] {
        let imm = ASIMDFPModImm::maybe_from_u64(value, size);
        assert_eq!(rt; imm.map(|imm| imm.enc_bits()), want, "of {value:x}");
    }
    let left = FPULeftShiftImm::maybe_from_u8(31, 32);
    assert_eq!(rt; left.map(|imm| imm.enc()), Some(63));
    let right = FPURightShiftImm::maybe_from_u8(1, 64);
    assert_eq!(rt; right.map(|imm| imm.enc()), Some(127));
    Ok(())
}

/// Adds the text of an immediate, and a space.
fn add<T: PrettyPrint>(alloc: Global, texts: &mut String, imm: &T) -> Result<(), AllocError>
    requires { T.can_print imm.now 0 }
{
    texts.push_str(imm.pretty_print_default(alloc)?.as_str())?;
    texts.push(' ')
}

#[test]
fn texts_of_offsets(rt: HostRuntime) -> Result<(), Fail> {
    let alloc = rt.alloc();
    let unscaled = SImm9::maybe_from_i64(-256).expect(&rt, "nine bits");
    let pair = SImm7Scaled::maybe_from_i64(-512, IrType::I64).expect(&rt, "seven bits");
    let scaled = UImm12Scaled::maybe_from_i64(65520, IrType::I8X16).expect(&rt, "twelve bits");
    let mut texts = String::new(alloc);
    add(alloc, &mut texts, &unscaled)?;
    add(alloc, &mut texts, &pair)?;
    add(alloc, &mut texts, &scaled)?;
    assert_eq!(rt; texts.as_str(), "#-256 #-512 #65520 ");
    Ok(())
}

#[test]
fn texts_of_numbers(rt: HostRuntime) -> Result<(), Fail> {
    let alloc = rt.alloc();
    let five = UImm5::maybe_from_u8(31).expect(&rt, "five bits");
    let six = UImm6::maybe_from_u8(63).expect(&rt, "six bits");
    let shift = ImmShift::maybe_from_u64(7).expect(&rt, "six bits");
    let twelve = Imm12::maybe_from_u64(4096).expect(&rt, "twelve bits, shifted");
    let mut texts = String::new(alloc);
    add(alloc, &mut texts, &NZCV::new(true, false, true, false))?;
    add(alloc, &mut texts, &five)?;
    add(alloc, &mut texts, &six)?;
    add(alloc, &mut texts, &shift)?;
    add(alloc, &mut texts, &twelve)?;
    assert_eq!(rt; texts.as_str(), "#NzCv #31 #63 #7 #4096 ");
    Ok(())
}

#[test]
fn texts_of_shifted_numbers(rt: HostRuntime) -> Result<(), Fail> {
    let alloc = rt.alloc();
    let left = FPULeftShiftImm::maybe_from_u8(31, 32).expect(&rt, "below 32");
    let right = FPURightShiftImm::maybe_from_u8(64, 64).expect(&rt, "at most 64");
    let wide = MoveWideConst::maybe_with_shift(21845, 17).expect(&rt, "a halfword");
    let mut texts = String::new(alloc);
    add(alloc, &mut texts, &left)?;
    add(alloc, &mut texts, &right)?;
    add(alloc, &mut texts, &wide)?;
    assert_eq!(rt; texts.as_str(), "#31 #64 #21845, LSL #16 ");
    Ok(())
}

#[test]
fn texts_of_patterns(rt: HostRuntime) -> Result<(), Fail> {
    let alloc = rt.alloc();
    let logic = ImmLogic::maybe_from_u64(248, IrType::I64).expect(&rt, "a run of ones");
    let bits = 0x3ff0_0000_0000_0000;
    let float = ASIMDFPModImm::maybe_from_u64(bits, ScalarSize::Size64).expect(&rt, "one");
    let mut texts = String::new(alloc);
    add(alloc, &mut texts, &logic)?;
    add(alloc, &mut texts, &logic.invert())?;
    add(alloc, &mut texts, &float)?;
    for (value, size) in [
        (0x42_ffff, ScalarSize::Size32),
        (0x4200, ScalarSize::Size16),
        (0xff00, ScalarSize::Size64),
    ] {
        let imm = ASIMDMovModImm::maybe_from_u64(value, size).expect(
            &rt,
            "a byte in zeros or ones",
        );
        add(alloc, &mut texts, &imm)?;
    }
    let want = "#248 #18446744073709551367 #0x3ff0000000000000 #66, MSL #16 #66, LSL #8 #65280 ";
    assert_eq!(rt; texts.as_str(), want);
    Ok(())
}
