//! What is recorded at places of the code: relocations, calls, patchable calls and stack maps.

ghost use Rattle.std.specs.Prelude.{◌≡◌, OnOk, OnErr, [], ◌∷◌, ◌++◌};

use crate::label_use::MachInstLabelUse;
use crate::parts::Parts;
use a64_base::{ExternalName, Reloc, UserStackMap};
use std::alloc::{AllocError, Global};

/// What is recorded at places of the code, in the order in which it came. Places are bytes from the start
/// of the code.
#[derive(Drop)]
pub struct Records {
    /// The relocations: kind, name and addend.
    pub relocs: Vec<(u32, Reloc, ExternalName, i64)>,
    /// The places behind calls.
    pub calls: Vec<u32>,
    /// The places behind patchable calls, with the calls' lengths in bytes.
    pub patchable: Vec<(u32, u32)>,
    /// The stack maps by the places behind their calls.
    pub maps: Vec<(u32, UserStackMap)>,
}

impl Records {
    /// Nothing is recorded. It takes no memory.
    pub fn new(alloc: Global) -> Self
        ensures relocs { result.relocs.items ≡ [] }
        ensures calls { result.calls.items ≡ [] }
        ensures patchable { result.patchable.items ≡ [] }
        ensures maps { result.maps.items ≡ [] }
    {
        Records {
            relocs: Vec::new(alloc),
            calls: Vec::new(alloc),
            patchable: Vec::new(alloc),
            maps: Vec::new(alloc),
        }
    }
}

impl<'c, K: MachInstLabelUse> Parts<'c, K> {
    ghost use Rattle.a64_buffer.specs.Buffer.{end_of};
    ghost use Rattle.a64_buffer.specs.Sound.{seen, AreSound};
    ghost use Rattle.a64_buffer.specs.Later.{IsLater};

    /// Records a relocation at the end.
    pub fn add_reloc(
        &mut self,
        kind: Reloc,
        name: ExternalName,
        addend: i64,
    ) -> Result<(), AllocError>
        requires sound { AreSound K.kinds self.old }
        ensures sound { AreSound K.kinds self.new }
        ensures ok { OnOk result (seen self.new ≡ record (seen self.old) {
          records = record (seen self.old).records {
            relocs = (seen self.old).records.relocs ++ (end_of (seen self.old), kind, name, addend)
                ∷ [];
          };
        }) }
        ensures err { OnErr result (seen self.new ≡ seen self.old) }
        ensures later { OnOk result (IsLater (seen self.old) (seen self.new)) }
    {
        let place = self.end();
        self.records.relocs.push((place, kind, name, addend))?;
        Ok(())
    }

    /// Records that a call ends here.
    pub fn add_call_site(&mut self) -> Result<(), AllocError>
        requires sound { AreSound K.kinds self.old }
        ensures sound { AreSound K.kinds self.new }
        ensures ok { OnOk result (seen self.new ≡ record (seen self.old) {
          records = record (seen self.old).records {
            calls = (seen self.old).records.calls ++ end_of (seen self.old) ∷ [];
          };
        }) }
        ensures err { OnErr result (seen self.new ≡ seen self.old) }
        ensures later { OnOk result (IsLater (seen self.old) (seen self.new)) }
    {
        let place = self.end();
        self.records.calls.push(place)?;
        Ok(())
    }

    /// Records that a patchable call of so many bytes ends here.
    pub fn add_patchable_call_site(&mut self, len: u32) -> Result<(), AllocError>
        requires sound { AreSound K.kinds self.old }
        ensures sound { AreSound K.kinds self.new }
        ensures ok { OnOk result (seen self.new ≡ record (seen self.old) {
          records = record (seen self.old).records {
            patchable = (seen self.old).records.patchable ++ (end_of (seen self.old), len) ∷ [];
          };
        }) }
        ensures err { OnErr result (seen self.new ≡ seen self.old) }
        ensures later { OnOk result (IsLater (seen self.old) (seen self.new)) }
    {
        let place = self.end();
        self.records.patchable.push((place, len))?;
        Ok(())
    }

    /// Records the stack map of the call that ends here.
    pub fn push_user_stack_map(&mut self, map: UserStackMap) -> Result<(), AllocError>
        requires sound { AreSound K.kinds self.old }
        ensures sound { AreSound K.kinds self.new }
        ensures ok { OnOk result (seen self.new ≡ record (seen self.old) {
          records = record (seen self.old).records {
            maps = (seen self.old).records.maps ++ (end_of (seen self.old), map) ∷ [];
          };
        }) }
        ensures err { OnErr result (seen self.new ≡ seen self.old) }
        ensures later { OnOk result (IsLater (seen self.old) (seen self.new)) }
    {
        let place = self.end();
        self.records.maps.push((place, map))?;
        Ok(())
    }
}
