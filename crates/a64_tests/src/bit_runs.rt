//! Which numbers are immediates of bitwise instructions, by their fields in the Arm manual.

ghost use Rattle.std.specs.Prelude.{◌<◌};

use a64_base::IrType;
use a64_imms::ImmLogic;
use std::test::Fail;

/// N, R and S of the immediate of a value.
fn triple(value: u64, ty: IrType) -> Option<(bool, u8, u8)> {
    match ImmLogic::maybe_from_u64(value, ty) {
        Some(imm) => Some((imm.n, imm.r, imm.s)),
        None => None,
    }
}

#[test]
fn named_values(rt: HostRuntime) -> Result<(), Fail> {
    for (value, want) in [
        (0, None),
        (u64::MAX, None),
        (5, None),
        (11, None),
        (249, None),
        (248, Some((true, 61, 4))),
        (0xaaaa_aaaa_aaaa_aaaa, Some((false, 1, 60))),
        (0x8181_8181_8181_8181, Some((false, 1, 49))),
        (u64::MAX - 1, Some((true, 63, 62))),
        (1, Some((true, 0, 0))),
        (2, Some((true, 63, 0))),
        (1920, Some((true, 57, 3))),
        (0x7ffe, Some((true, 63, 13))),
        (0x30000, Some((true, 48, 1))),
        (0x100000, Some((true, 44, 0))),
        (0xffc3_ffc3_ffc3_ffc3, Some((false, 10, 43))),
        (0x1_0000_0001, Some((false, 0, 0))),
        (0x1111_1111_1111_1111, Some((false, 0, 56))),
    ] {
        assert_eq!(rt; triple(value, IrType::I64), want, "of {value}");
    }
    // at 32 bits the upper half does not count, and stays in the value
    let imm = ImmLogic::maybe_from_u64(0xffff_ffff_0000_0001, IrType::I32);
    let want = Some((false, 0xffff_ffff_0000_0001));
    assert_eq!(rt; imm.map(|imm| (imm.n, imm.value())), want);
    assert_eq!(rt; triple(1, IrType::I16), None);
    Ok(())
}

/// The length of the word, and the number of ones in it, that N and S name.
fn word(n: u32, s: u32) -> Option<(u32, u32)> {
    match (n, s) {
        (1, 0..=62) => Some((64, s + 1)),
        (0, 0..=30) => Some((32, s + 1)),
        (0, 32..=46) => Some((16, s - 31)),
        (0, 48..=54) => Some((8, s - 47)),
        (0, 56..=58) => Some((4, s - 55)),
        (0, 60) => Some((2, 1)),
        _ => None,
    }
}

/// So many ones in a word of so many bits, rotated right by r, and repeated.
fn number(bits: u32, ones: u32, r: u32) -> u64
    requires bits { 0 < bits }
    requires r { r < 64 }
{
    let mut number = 0;
    for place in 0..64u32 {
        if (place + r) % bits < ones {
            number |= 1 << place;
        }
    }
    number
}

/// Whether a value has these fields, and its complement has some: at 64 bits, and where N is 0
/// at 32 too.
fn are_immediates(value: u64, n: u32, r: u32, s: u32) -> bool
    requires { (r < 64) × (s < 64) }
{
    let want = Some((n == 1, r as u8, s as u8));
    let wide = triple(value, IrType::I64) == want && triple(!value, IrType::I64).is_some();
    let narrow = triple(value, IrType::I32) == want && triple(!value, IrType::I32).is_some();
    wide && (n == 1 || narrow)
}

#[test]
fn runs_and_their_complements(rt: HostRuntime) -> Result<(), Fail> {
    for fields in 0..8192u32 {
        let (n, r, s) = (fields / 4096, fields / 64 % 64, fields % 64);
        let Some((bits, ones)) = word(n, s) else {
            continue;
        };
        if r >= bits {
            continue;
        }
        let value = number(bits, ones, r);
        assert!(rt; are_immediates(value, n, r, s), "of {value}");
    }
    Ok(())
}
