//! A run in which a call that finds no memory is made again, so that it ends as it does with enough
//! memory, whichever one of its allocations is refused (tools/refused_memory_in_a_buffer).

ghost use Rattle.std.specs.Prelude.{◌≡◌, ◌+◌, ◌%◌, ◌^◌, ◌<◌, OnOk, [], ◌∷◌, ◌++◌, IsSomeAnd};
ghost use Rattle.std.specs.FinMap as finmap;
ghost use Rattle.a64_buffer.specs.declared.site.Target.TheVariants.{Constant};
ghost use Rattle.a64_buffer.specs.Constants.{IsConstant, inserted};
ghost use Rattle.a64_buffer.specs.Classes.{owed, Fits};
ghost use Rattle.a64_buffer.specs.Buffer.{end_of, IsFree, IsOutside, made_use};

use crate::short_use::ShortUse;
use a64_base::{ExternalName, Reloc, UserStackMap, VCodeConstant};
use a64_buffer::{Constants, ForceVeneers, MachBuffer, MachInstLabelUse};
use std::alloc::AllocError;

/// Adds a constant, at the second try if need be.
fn add(constants: &mut Constants, constant: VCodeConstant, bytes: &[u8]) -> Result<(), AllocError>
    requires { IsConstant bytes.now }
    ensures { OnOk result (constants.new ≡ inserted constants.old constant.0 bytes.now) }
{
    if constants.insert(constant, bytes).is_ok() {
        return Ok(());
    }
    constants.insert(constant, bytes)?;
    Ok(())
}

/// Puts a word, at the second try if need be.
fn put<K: MachInstLabelUse>(buffer: &mut MachBuffer<'_, K>, word: u32) -> Result<(), AllocError>
    requires short { end_of buffer.old + 4 < 2 ^ 31 }
    requires fits { Fits K.kinds buffer.old 4 }
    ensures { OnOk result (buffer.new ≡ record buffer.old {
      words = buffer.old.words ++ word ∷ [];
    }) }
{
    if buffer.put4(word).is_ok() {
        return Ok(());
    }
    buffer.put4(word)
}

/// Makes a load of a constant, at the second try if need be.
fn load<K: MachInstLabelUse>(
    buffer: &mut MachBuffer<'_, K>,
    offset: u32,
    constant: VCodeConstant,
    kind: K,
) -> Result<(), AllocError>
    requires aligned { offset % 4 ≡ 0 }
    requires inside { offset < end_of buffer.old }
    requires free { IsFree buffer.old.uses offset }
    requires outside { IsOutside buffer.old.islands offset }
    requires urgency { K.kinds.urgency kind ≡ 2 }
    requires known { IsSomeAnd (finmap.get buffer.old.constants constant.0) IsConstant }
    requires fits { Fits K.kinds (record buffer.old {
      uses = buffer.old.uses
          ++ made_use K.kinds buffer.old.labels offset (Constant constant) kind ∷ [];
    }) 0 }
    ensures { OnOk result (buffer.new ≡ record buffer.old {
      uses = buffer.old.uses
          ++ made_use K.kinds buffer.old.labels offset (Constant constant) kind ∷ [];
    }) }
{
    if buffer.use_constant(offset, constant, kind).is_ok() {
        return Ok(());
    }
    buffer.use_constant(offset, constant, kind)
}

/// Records a relocation, at the second try if need be.
fn relocation<K: MachInstLabelUse>(
    buffer: &mut MachBuffer<'_, K>,
    kind: Reloc,
    name: ExternalName,
    addend: i64,
) -> Result<(), AllocError>
    ensures { OnOk result (buffer.new ≡ record buffer.old {
      records = record buffer.old.records {
        relocs = buffer.old.records.relocs ++ (end_of buffer.old, kind, name, addend) ∷ [];
      };
    }) }
{
    if buffer.add_reloc(kind, name, addend).is_ok() {
        return Ok(());
    }
    buffer.add_reloc(kind, name, addend)
}

/// Records a call, at the second try if need be.
fn call<K: MachInstLabelUse>(buffer: &mut MachBuffer<'_, K>) -> Result<(), AllocError>
    ensures { OnOk result (buffer.new ≡ record buffer.old {
      records = record buffer.old.records {
        calls = buffer.old.records.calls ++ end_of buffer.old ∷ [];
      };
    }) }
{
    if buffer.add_call_site().is_ok() {
        return Ok(());
    }
    buffer.add_call_site()
}

/// Records a patchable call, at the second try if need be.
fn patchable_call<K: MachInstLabelUse>(
    buffer: &mut MachBuffer<'_, K>,
    len: u32,
) -> Result<(), AllocError>
    ensures { OnOk result (buffer.new ≡ record buffer.old {
      records = record buffer.old.records {
        patchable = buffer.old.records.patchable ++ (end_of buffer.old, len) ∷ [];
      };
    }) }
{
    if buffer.add_patchable_call_site(len).is_ok() {
        return Ok(());
    }
    buffer.add_patchable_call_site(len)
}

/// Records a stack map, at the second try if need be.
fn stack_map<K: MachInstLabelUse>(
    buffer: &mut MachBuffer<'_, K>,
    map: UserStackMap,
) -> Result<(), AllocError>
    ensures { OnOk result (buffer.new ≡ record buffer.old {
      records = record buffer.old.records {
        maps = buffer.old.records.maps ++ (end_of buffer.old, map) ∷ [];
      };
    }) }
{
    if buffer.push_user_stack_map(map).is_ok() {
        return Ok(());
    }
    buffer.push_user_stack_map(map)
}

/// Writes an island, at the second try if need be.
fn island<K: MachInstLabelUse>(buffer: &mut MachBuffer<'_, K>) -> Result<(), AllocError>
    requires { end_of buffer.old + owed K.kinds buffer.old + 4 < 2 ^ 31 }
{
    let before = buffer.cur_offset();
    if buffer.emit_island(0, ForceVeneers::Yes, true).is_ok() {
        return Ok(());
    }
    if buffer.cur_offset() != before {
        return Err(AllocError);
    }
    buffer.emit_island(0, ForceVeneers::Yes, true)
}

#[test]
fn ends_as_with_enough_memory(rt: HostRuntime) -> Result<(), AllocError> {
    let mut constants = Constants::new(rt.alloc());
    add(&mut constants, VCodeConstant(7), &[1, 2, 3, 4, 5, 6, 7, 8])?;
    let mut buffer: MachBuffer<'_, ShortUse> = MachBuffer::new(rt.alloc(), &constants);
    put(&mut buffer, 0x5800_0001)?;
    load(&mut buffer, 0, VCodeConstant(7), ShortUse::Middle)?;
    island(&mut buffer)?;
    // a word, the jump over the island, and the constant
    assert_eq!(rt; buffer.cur_offset(), 4 + 4 + 8);
    Ok(())
}

#[test]
fn records_as_with_enough_memory(rt: HostRuntime) -> Result<(), AllocError> {
    let constants = Constants::new(rt.alloc());
    let mut buffer: MachBuffer<'_, ShortUse> = MachBuffer::new(rt.alloc(), &constants);
    relocation(&mut buffer, Reloc::Arm64Call, ExternalName(1), -3)?;
    put(&mut buffer, 0x9400_0000)?;
    call(&mut buffer)?;
    // the end of the code asks for memory once more, and has no second try
    let code = buffer.finish()?;
    assert_eq!(rt; code.bytes.as_slice(), [0, 0, 0, 0x94].as_slice());
    let [(place, Reloc::Arm64Call, name, addend)] = code.relocs.as_slice() else {
        return Err(AllocError);
    };
    assert_eq!(rt; (*place, *name, *addend), (0, ExternalName(1), -3));
    assert_eq!(rt; code.calls.as_slice(), [4].as_slice());
    Ok(())
}

#[test]
fn records_calls_as_with_enough_memory(rt: HostRuntime) -> Result<(), AllocError> {
    let constants = Constants::new(rt.alloc());
    let mut buffer: MachBuffer<'_, ShortUse> = MachBuffer::new(rt.alloc(), &constants);
    patchable_call(&mut buffer, 4)?;
    stack_map(&mut buffer, UserStackMap(7))?;
    let code = buffer.finish()?;
    assert_eq!(rt; code.pool, 0);
    assert_eq!(rt; code.patchable.as_slice(), [(0, 4)].as_slice());
    assert_eq!(rt; code.maps.as_slice(), [(0, UserStackMap(7))].as_slice());
    Ok(())
}
