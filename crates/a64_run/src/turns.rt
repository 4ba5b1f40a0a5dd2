//! The file that `gen` makes for itself.

ghost use Rattle.std.specs.Prelude.{◌≡◌, ◌≤◌, ◌<◌, ◌++◌, IfOk, OnOk, min};
ghost use Rattle.std.specs.FinMap.{empty};
ghost use Rattle.std.specs.List.{flat_map, range_with_len};
ghost use Rattle.a64_text.specs.States.{contents_of};
ghost use Rattle.a64_run.specs.Gen as definitions;
ghost use Rattle.a64_run.specs.Gen.{gen_turn, gen_bytes, constants_below};

use a64_base::{
    BranchTarget, IrType, MachLabel, MemFlagsData, TestBitAndBranchKind, VCodeConstant,
    writable_vreg, xreg,
};
use a64_buffer::Constants;
use a64_inst::{AMode, EmitFlags, EmitInfo, FrameLayout, Inst, Item};
use a64_list::ListVec;
use a64_text::File;
use std::alloc::{AllocError, Global};

/// The branch with this number, of so many.
fn gen_branch(count: u32, number: u32) -> Inst
    ensures { result ≡ definitions.gen_branch count number }
{
    let kind = if number % 2 == 0 {
        TestBitAndBranchKind::Z
    } else {
        TestBitAndBranchKind::NZ
    };
    Inst::TestBitAndBranch {
        kind,
        taken: BranchTarget::Label(MachLabel(count)),
        not_taken: BranchTarget::Label(MachLabel(number)),
        rn: xreg(1),
        bit: (number % 64) as u8,
    }
}

/// The load with this number.
fn gen_load(number: u32) -> Inst
    ensures { result ≡ definitions.gen_load number }
{
    let mem = AMode::Const {
        addr: VCodeConstant(number % 4),
    };
    Inst::gen_load(
        writable_vreg((number % 32) as u8),
        mem,
        IrType::F64,
        MemFlagsData::trusted(),
    )
}

/// Puts the items of the turn with this number, of so many.
fn put_turn(items: &mut Vec<Item>, count: u32, number: u32) -> Result<(), AllocError>
    ensures { OnOk result (items.new.items ≡ items.old.items ++ gen_turn count number) }
{
    items.push(Item::Emit {
        inst: gen_branch(count, number),
        map: None,
    })?;
    items.push(Item::Bind(MachLabel(number)))?;
    items.push(Item::Emit {
        inst: gen_load(number),
        map: None,
    })?;
    Ok(())
}

/// Puts the items of all turns.
fn put_turns(items: &mut Vec<Item>, count: u32) -> Result<(), AllocError>
    ensures { OnOk result (items.new.items ≡ items.old.items
        ++ flat_map (gen_turn count) (range_with_len 0 count)) }
{
    for number in 0..count {
        put_turn(items, count, number)?;
    }
    Ok(())
}

/// The items of so many turns. Their memory is taken at once.
fn gen_items(alloc: Global, count: u32) -> Result<Vec<Item>, AllocError>
    requires { count ≤ 100000 }
    ensures { IfOk result (λ items. items.items ≡ definitions.gen_items count) }
{
    let mut items = Vec::with_capacity(alloc, 3 * count as usize + 2)?;
    put_turns(&mut items, count)?;
    items.push(Item::Bind(MachLabel(count)))?;
    items.push(Item::Emit {
        inst: Inst::Ret,
        map: None,
    })?;
    Ok(items)
}

/// The bytes of the constant with this number.
fn gen_bytes(number: u32) -> [u8; 8]
    requires { number < 4 }
    ensures { result ≡ gen_bytes number }
{
    let first = (8 * number + 1) as u8;
    [
        first,
        first + 1,
        first + 2,
        first + 3,
        first + 4,
        first + 5,
        first + 6,
        first + 7,
    ]
}

/// Puts the constants of so many turns, at most four.
fn put_constants(constants: &mut Constants, count: u32) -> Result<(), AllocError>
    requires { constants.old ≡ empty }
    ensures { OnOk result (constants.new ≡ constants_below (min count 4)) }
{
    for number in 0..count.min(4) {
        let bytes = gen_bytes(number);
        constants.insert(VCodeConstant(number), &bytes)?;
    }
    Ok(())
}

/// The file of so many turns, at most 100,000.
///
/// # Errors
///
/// Want of memory.
pub fn gen_file(alloc: Global, count: u32) -> Result<File, AllocError>
    requires { count ≤ 100000 }
    ensures { IfOk result (λ file. contents_of file ≡ definitions.gen_file count) }
{
    let items = gen_items(alloc, count)?;
    let mut constants = Constants::new(alloc);
    put_constants(&mut constants, count)?;
    Ok(File {
        items,
        constants,
        frame: FrameLayout {
            setup_area_size: 0,
            tail_args_size: 0,
            clobber_size: 0,
            fixed_frame_storage_size: 0,
            outgoing_args_size: 0,
            restore: ListVec::new(alloc),
        },
        info: EmitInfo::new(EmitFlags {
            enable_probestack: false,
            enable_table_access_spectre_mitigation: false,
            use_csdb: false,
        }),
    })
}
