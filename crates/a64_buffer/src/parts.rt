//! The parts of a buffer of code, and what changes them.

ghost use Rattle.std.specs.Prelude.{◌≡◌, ◌+◌, ◌/◌, ◌%◌, ◌^◌, ◌<◌, ◌≤◌, All, IfOk, OnOk, OnErr, [], ◌∷◌, ◌++◌, None, Some, MatchOption, MatchBool, IfSome, IsSomeAnd, false, option_map, length, map, min, vec_len, vec_capacity};
ghost use Rattle.std.specs.Option.{unwrap_or};
ghost use Rattle.std.specs.FinMap as finmap;
ghost use Rattle.a64_base.specs.declared.entity.MachLabel.{MachLabel};
ghost use Rattle.a64_words.specs.Word.{words_of};
ghost use Rattle.a64_buffer.specs.Buffer.{label_of};

use crate::chain::{close_label, reached};
use crate::constants::Constants;
use crate::finish::Finished;
use crate::label_use::MachInstLabelUse;
use crate::queue::Queue;
use crate::queues::{no_queues, reserve_queue};
use crate::records::Records;
use crate::room::Burdens;
use crate::settle::{labels_in_order, settle};
use crate::site::{Target, Use};
use a64_base::{MachLabel, TrapCode};
use a64_label_map::LabelMap;
use a64_words::Words;
use std::alloc::{AllocError, Global};

/// The parts of a buffer of code.
#[derive(Drop)]
pub struct Parts<'c, K> {
    /// The words, as they were put.
    pub words: Words,
    /// The uses, in the order in which they were made.
    pub uses: Vec<Use<K>>,
    /// The places of the bound labels by number, in bytes from the start of the code.
    pub labels: LabelMap<u32>,
    /// For each use, one more than the index of the use of the same label or constant before it, or 0.
    pub earlier: Vec<usize>,
    /// For each label that is used, one more than the index of its last use.
    pub heads: LabelMap<usize>,
    /// For each constant that was loaded, one more than the index of its last use that waits for a
    /// copy, or 0.
    pub loads: LabelMap<usize>,
    /// The open uses by rank.
    pub queues: [Queue; 5],
    /// How many bytes the open uses may put before what uses of each urgency get.
    pub burdens: Burdens,
    /// Where each island begins and ends, in order.
    pub islands: Vec<(u32, u32)>,
    /// The places of traps, with their codes, in order: those recorded, and the trap words of islands.
    pub traps: Vec<(u32, TrapCode)>,
    /// The constants that the code may load.
    pub constants: &'c Constants,
    /// What else is recorded at places of the code.
    pub records: Records,
    /// Where memory comes from.
    pub alloc: Global,
}

/// The label that a target is, where it is one.
#[inline(always)]
pub fn target_label(target: Target) -> Option<MachLabel>
    ensures { option_map (λ (l : MachLabel). l.0) result ≡ label_of target }
{
    match target {
        Target::Label(label) => Some(label),
        _ => None,
    }
}

/// The label of lesser number.
fn lesser(first: Option<MachLabel>, label: MachLabel) -> MachLabel
    ensures { MatchOption first (result ≡ label) (λ f. result.0 ≡ min f.0 label.0) }
{
    match first {
        Some(first) if first.0 < label.0 => first,
        _ => label,
    }
}

/// Takes the memory for one item more, where there is none yet.
#[inline(always)]
fn reserve_one<T>(list: &mut Vec<T>) -> Result<(), AllocError>
    ensures items { list.new.items ≡ list.old.items }
    ensures ok { OnOk result (vec_len list.new + 1 ≤ vec_capacity list.new) }
{
    if list.len() < list.capacity() {
        return Ok(());
    }
    list.reserve(1)
}

impl<'c, K: MachInstLabelUse> Parts<'c, K> {
    ghost use Rattle.a64_buffer.specs.Buffer.{new_buffer, end_of, stop_of, IsFree, IsOutside, IsBound, IsUnboundOf, IsFirstUnbound, IsUnreachedOf, IsFirstUnreached, made_use, closed_at, IsReached};
    ghost use Rattle.a64_buffer.specs.Kinds.{IsWithin};
    ghost use Rattle.a64_buffer.specs.Classes.{owed, Fits};
    ghost use Rattle.a64_buffer.specs.Chain.{constant_of};
    ghost use Rattle.a64_buffer.specs.Settled.{MayLead, IsCode};
    ghost use Rattle.a64_buffer.specs.Sound.{seen, IsPlaced, AreApart, IsKinded, IsKnown, AreSound};
    ghost use Rattle.a64_buffer.specs.Later.{IsLaterFrom, IsLater};
    ghost use Rattle.a64_buffer.specs.Finished.{IsFinished};

    /// The parts of a buffer without code.
    pub fn new(alloc: Global, constants: &'c Constants) -> Self
        ensures seen { seen result ≡ new_buffer constants.now }
        ensures sound { AreSound K.kinds result }
    {
        Parts {
            words: Words::new(alloc),
            uses: Vec::new(alloc),
            labels: LabelMap::new(alloc),
            earlier: Vec::new(alloc),
            heads: LabelMap::new(alloc),
            loads: LabelMap::new(alloc),
            queues: no_queues(alloc),
            burdens: Burdens {
                first: 0,
                second: 0,
                third: 0,
            },
            islands: Vec::new(alloc),
            traps: Vec::new(alloc),
            constants,
            records: Records::new(alloc),
            alloc,
        }
    }

    /// Takes the memory for so many words and uses more, and expects as many labels as uses.
    pub fn reserve(&mut self, words: usize, uses: usize) -> Result<(), AllocError>
        requires sound { AreSound K.kinds self.old }
        ensures sound { AreSound K.kinds self.new }
        ensures seen { seen self.new ≡ seen self.old }
    {
        self.labels.expect(uses);
        self.heads.expect(uses);
        self.words.reserve(words)?;
        self.uses.reserve(uses)?;
        self.earlier.reserve(uses)
    }

    /// Where the next word will stand.
    #[inline(always)]
    pub fn end(&self) -> u32
        requires { end_of (seen self.now) < 2 ^ 31 }
        ensures { result ≡ end_of (seen self.now) }
    {
        self.words.size() as u32
    }

    /// Adds a word.
    #[inline(always)]
    pub fn put(&mut self, word: u32) -> Result<(), AllocError>
        requires sound { AreSound K.kinds self.old }
        requires short { end_of (seen self.old) + 4 < 2 ^ 31 }
        requires fits { Fits K.kinds (seen self.old) 4 }
        ensures sound { AreSound K.kinds self.new }
        ensures ok { OnOk result (seen self.new ≡ record (seen self.old) {
          words = self.old.words.items ++ word ∷ [];
        }) }
        ensures err { OnErr result (seen self.new ≡ seen self.old) }
        ensures later { OnOk result (IsLater (seen self.old) (seen self.new)) }
    {
        self.words.push(word)?;
        Ok(())
    }

    /// Adds two words, the low half of a number first.
    pub fn put_two(&mut self, value: u64) -> Result<(), AllocError>
        requires sound { AreSound K.kinds self.old }
        requires short { end_of (seen self.old) + 8 < 2 ^ 31 }
        requires fits { Fits K.kinds (seen self.old) 8 }
        ensures sound { AreSound K.kinds self.new }
        ensures ok { OnOk result (seen self.new ≡ record (seen self.old) {
          words = self.old.words.items ++ value % 2 ^ 32 ∷ value / 2 ^ 32 ∷ [];
        }) }
        ensures err { OnErr result (seen self.new ≡ seen self.old) }
        ensures later { OnOk result (IsLater (seen self.old) (seen self.new)) }
    {
        self.words.reserve(2)?;
        self.words.push_reserved((value & 0xffff_ffff) as u32);
        self.words.push_reserved((value >> 32) as u32);
        Ok(())
    }

    /// Adds the words that bytes are.
    pub fn put_data(&mut self, bytes: &[u8]) -> Result<(), AllocError>
        requires sound { AreSound K.kinds self.old }
        requires whole { length bytes.now % 4 ≡ 0 }
        requires short { end_of (seen self.old) + length bytes.now < 2 ^ 31 }
        requires fits { Fits K.kinds (seen self.old) (length bytes.now) }
        ensures sound { AreSound K.kinds self.new }
        ensures ok { OnOk result (seen self.new ≡ record (seen self.old) {
          words = self.old.words.items ++ words_of bytes.now;
        }) }
        ensures err { OnErr result (seen self.new ≡ seen self.old) }
        ensures later { OnOk result (IsLater (seen self.old) (seen self.new)) }
    {
        self.words.reserve(bytes.len() / 4)?;
        self.words.extend_reserved(bytes);
        Ok(())
    }

    /// Records a trap at the end.
    pub fn add_trap(&mut self, code: TrapCode) -> Result<(), AllocError>
        requires sound { AreSound K.kinds self.old }
        ensures sound { AreSound K.kinds self.new }
        ensures ok { OnOk result (seen self.new ≡ record (seen self.old) {
          traps = self.old.traps.items ++ (end_of (seen self.old), code) ∷ [];
        }) }
        ensures err { OnErr result (seen self.new ≡ seen self.old) }
        ensures later { OnOk result (IsLater (seen self.old) (seen self.new)) }
    {
        let place = self.end();
        self.traps.push((place, code))?;
        Ok(())
    }

    /// Where a use that is made now stops.
    #[inline(always)]
    pub fn stop_of(&self, offset: u32, target: Target, kind: K) -> Option<u32>
        ensures { result ≡ stop_of K.kinds (seen self.now).labels kind offset target }
    {
        let label = target_label(target)?;
        let place = self.labels.get(label.0)?;
        reached(kind, offset, place)
    }

    /// Makes the use that is added next the last of its label or constant, and answers which was the
    /// last before.
    #[inline(always)]
    fn link_new(&mut self, target: Target) -> Result<usize, AllocError>
        ensures label { IfOk result (λ earlier. IfSome (label_of target) (λ label. earlier
            ≡ unwrap_or (finmap.get self.old.heads label) 0)) }
        ensures constant { IfOk result (λ earlier. IfSome (constant_of target)
            (λ constant. earlier ≡ unwrap_or (finmap.get self.old.loads constant) 0)) }
        ensures heads { OnOk result (self.new.heads ≡ (elim (label_of target) [
          | None ↦ self.old.heads
          | Some label ↦ finmap.insert self.old.heads label (length self.old.uses.items + 1)
        ])) }
        ensures loads { OnOk result (self.new.loads ≡ (elim (constant_of target) [
          | None ↦ self.old.loads
          | Some constant ↦ finmap.insert self.old.loads constant (length self.old.uses.items + 1)
        ])) }
        ensures err_heads { OnErr result (self.new.heads ≡ self.old.heads) }
        ensures err_loads { OnErr result (self.new.loads ≡ self.old.loads) }
        ensures rest { self.new ≡ record self.old {
          heads = self.new.heads;
          loads = self.new.loads;
        } }
    {
        let number = self.uses.len() + 1;
        let before = match target {
            Target::Label(label) => self.heads.insert(label.0, number)?,
            Target::Constant(constant) => self.loads.insert(constant.0, number)?,
            Target::Trap(_) | Target::IslandEnd => None,
        };
        Ok(before.unwrap_or(0))
    }

    /// Adds a use.
    #[inline(always)]
    pub fn add_use(&mut self, offset: u32, target: Target, kind: K) -> Result<(), AllocError>
        requires sound { AreSound K.kinds self.old }
        requires aligned { offset % 4 ≡ 0 }
        requires inside { offset < end_of (seen self.old) }
        requires free { IsFree self.old.uses.items offset }
        requires outside { IsOutside self.old.islands.items offset }
        requires kinded { IsKinded K.kinds target kind }
        requires known { IsKnown (seen self.old).constants target }
        requires fits { Fits K.kinds (record (seen self.old) {
          uses = self.old.uses.items ++ made_use K.kinds (seen self.old).labels offset target kind
              ∷ [];
        }) 0 }
        ensures sound { AreSound K.kinds self.new }
        ensures ok { OnOk result (seen self.new ≡ record (seen self.old) {
          uses = self.old.uses.items ++ made_use K.kinds (seen self.old).labels offset target kind
              ∷ [];
        }) }
        ensures err { OnErr result (seen self.new ≡ seen self.old) }
        ensures later { OnOk result (IsLaterFrom offset (seen self.old) (seen self.new)) }
    {
        let stop = self.stop_of(offset, target, kind);
        let site = Use {
            offset,
            target,
            kind,
            stop,
        };
        reserve_one(&mut self.uses)?;
        reserve_one(&mut self.earlier)?;
        let class = site.waiting_class();
        let limit = site.limit();
        reserve_queue(&mut self.queues, class, limit)?;
        let earlier = self.link_new(target)?;
        self.earlier.push_reserved(earlier);
        self.await_use(&site, class, limit);
        self.uses.push_reserved(site);
        Ok(())
    }

    /// Binds a label to the end.
    #[inline(always)]
    pub fn bind(&mut self, label: MachLabel) -> Result<(), AllocError>
        requires sound { AreSound K.kinds self.old }
        requires unbound { finmap.get (seen self.old).labels label.0 ≡ None }
        ensures sound { AreSound K.kinds self.new }
        ensures ok { OnOk result (seen self.new ≡ record (seen self.old) {
          uses = map (closed_at K.kinds label.0 (end_of (seen self.old))) self.old.uses.items;
          labels = finmap.insert (seen self.old).labels label.0 (end_of (seen self.old));
        }) }
        ensures err { OnErr result (seen self.new ≡ seen self.old) }
        ensures later { OnOk result (IsLater (seen self.old) (seen self.new)) }
    {
        let place = self.end();
        self.labels.insert(label.0, place)?;
        close_label(
            &mut self.uses,
            &self.earlier,
            &self.heads,
            &mut self.queues,
            &mut self.burdens,
            label.0,
            place,
        );
        Ok(())
    }

    /// The label of a use, where it is of one that is not bound.
    fn unbound_label(&self, site: &Use<K>) -> Option<MachLabel>
        ensures { IsUnboundOf (seen self.now).labels site.now result }
    {
        let label = target_label(site.target)?;
        if self.labels.contains(label.0) {
            None
        } else {
            Some(label)
        }
    }

    /// The used label of least number that is not bound.
    pub fn first_unbound(&self) -> Option<MachLabel>
        ensures { IsFirstUnbound (seen self.now) result }
    {
        let mut first: Option<MachLabel> = None;
        for site in &self.uses {
            let Some(label) = self.unbound_label(site) else {
                continue;
            };
            first = Some(lesser(first, label));
        }
        first
    }

    /// Whether a use at a place reaches a label.
    fn reaches(&self, site: &Use<K>, label: MachLabel) -> bool
        ensures { MatchBool result
            (IsSomeAnd (finmap.get (seen self.now).labels label.0) (λ place.
            IsWithin (K.kinds.forward site.now.kind)
            (K.kinds.backward site.now.kind) site.now.offset place))
            (IsSomeAnd (finmap.get (seen self.now).labels label.0) (λ place.
            IsWithin (K.kinds.forward site.now.kind)
            (K.kinds.backward site.now.kind) site.now.offset place) → ⊥) }
    {
        match self.labels.get(label.0) {
            Some(place) => reached(site.kind, site.offset, place).is_some(),
            None => false,
        }
    }

    /// The label of a use, where the use can have no veneer and does not reach it.
    fn unreached_label(&self, site: &Use<K>) -> Option<MachLabel>
        ensures { IsUnreachedOf K.kinds (seen self.now).labels site.now result }
    {
        if site.kind.supports_veneer() {
            return None;
        }
        let label = target_label(site.target)?;
        if self.reaches(site, label) {
            None
        } else {
            Some(label)
        }
    }

    /// The label of the first use that can have no veneer and does not reach it.
    pub fn first_unreached(&self) -> Option<MachLabel>
        ensures { IsFirstUnreached K.kinds (seen self.now) result }
    {
        for site in &self.uses {
            let label = self.unreached_label(site);
            if label.is_some() {
                return label;
            }
        }
        None
    }

    /// How many bytes the open uses may put into an island or a pool.
    #[inline(always)]
    pub fn owed(&self) -> u64
        requires { AreSound K.kinds self.now }
        ensures { result ≡ owed K.kinds (seen self.now) }
    {
        self.burdens.third
    }

    /// Whether an island is needed before so many bytes more.
    #[inline(always)]
    pub fn island_needed(&self, distance: u32) -> bool
        requires { AreSound K.kinds self.now }
        ensures { MatchBool result (Fits K.kinds (seen self.now) distance
            → ⊥) (Fits K.kinds (seen self.now) distance) }
    {
        !self.has_room(distance)
    }

    /// The finished code: the pool is written, and each use leads to its target.
    pub fn finish(mut self) -> Result<Finished, AllocError>
        requires sound { AreSound K.kinds self }
        requires short { end_of (seen self) + owed K.kinds (seen self) < 2 ^ 31 }
        requires bound { All (IsBound (seen self).labels) self.uses.items }
        requires direct { All (λ u. K.kinds.veneers u.kind ≡ false
            → IsReached K.kinds (seen self).labels u) self.uses.items }
        ensures { IfOk result (λ code. IsFinished K.kinds (seen self.entry) code) }
    {
        let pool = self.end();
        self.reserve_all()?;
        self.reserve_veneers()?;
        self.write_until(5);
        self.finish_words(pool)
    }

    /// The finished code, once the pool is written, which begins at a place.
    fn finish_words(self, pool: u32) -> Result<Finished, AllocError>
        requires placed { All (IsPlaced (end_of (seen self))) self.uses.items }
        requires apart { AreApart self.uses.items }
        requires able { All (MayLead K.kinds) self.uses.items }
        requires short { end_of (seen self) < 2 ^ 31 }
        ensures { IfOk result (λ code. IsCode K.kinds (seen self.entry) pool code) }
    {
        let Parts {
            words,
            uses,
            labels,
            islands,
            traps,
            records,
            alloc,
            ..
        } = self;
        let Records {
            relocs,
            calls,
            patchable,
            maps,
        } = records;
        let mut bytes = words.into_bytes();
        settle(&mut bytes, &uses);
        Ok(Finished {
            bytes,
            labels: labels_in_order(alloc, &labels)?,
            islands,
            pool,
            relocs,
            traps,
            calls,
            patchable,
            maps,
        })
    }
}
