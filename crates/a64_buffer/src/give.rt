//! What an island gives to an open use.

ghost use Rattle.std.specs.Prelude.{◌≡◌, ◌+◌, ◌*◌, ◌^◌, ◌<◌, ◌≤◌, [], ◌∷◌, ◌++◌, IsTrue, IfSome, IsSome, None, Some, length, map, slice_index_or, slice_set, vec_len, vec_capacity};
ghost use Rattle.std.specs.Option.{unwrap_or};
ghost use Rattle.std.specs.FinMap as finmap;
ghost use Rattle.a64_buffer.specs.Buffer.{end_of, label_of};
ghost use Rattle.a64_buffer.specs.declared.class.Class.TheVariants.{Trapping, Far};
ghost use Rattle.a64_buffer.specs.declared.site.Target.TheVariants.{Label};

use crate::class::Class;
use crate::label_use::MachInstLabelUse;
use crate::parts::{Parts, target_label};
use crate::site::{Target, Use};
use a64_base::{MachLabel, TrapCode};
use a64_words::Words;

/// Adds the words of a far veneer that stands at a place to words that have room for them, and
/// answers the place and the kind of the use that its last word is.
fn push_far_words<K: MachInstLabelUse>(words: &mut Words, kind: K, place: u32) -> (u32, K)
    requires veneers { IsTrue (K.kinds.veneers kind) }
    requires urgency { K.kinds.urgency kind ≡ 3 }
    requires low { place ≤ 2 ^ 31 }
    requires room { length words.old.items + length K.kinds.far_words + 1 ≤ words.old.capacity }
    ensures items { words.new.items ≡ words.old.items ++ (K.kinds.far_words ++ 0 ∷ []) }
    ensures capacity { words.old.capacity ≤ words.new.capacity }
    ensures last { result ≡ (place + 4 * length K.kinds.far_words, K.kinds.far_use) }
{
    let mut bytes = [0; 20];
    let veneer = &mut bytes[..kind.veneer_size() as usize];
    let last = kind.generate_veneer(veneer, place);
    words.extend_reserved(veneer);
    last
}

impl<'c, K: MachInstLabelUse> Parts<'c, K> {
    ghost use Rattle.a64_buffer.specs.Sound.{seen, AreApart};
    ghost use Rattle.a64_buffer.specs.Steps.{stopped, stands_at, AddsUse, GivesJump, GivesFar, GivesTrap};
    ghost use Rattle.a64_buffer.specs.Chain.{constant_of};
    ghost use Rattle.a64_buffer.specs.Queues.{IsWaitingClass};
    ghost use Rattle.a64_buffer.specs.Space.{IsTracked, KeepsQueues};

    /// Lets the use at an index, which loads no constant, stop at a place, in bytes from the start of
    /// the code. The class is what the use waits for, where it waits.
    #[inline(always)]
    pub fn stop_at(&mut self, index: usize, place: u32, class: Class)
        requires index { index < length self.old.uses.items }
        requires target { (d : _) → constant_of
            (slice_index_or self.old.uses.items index d).target ≡ None }
        requires class { (d : _) → IsWaitingClass K.kinds
            (slice_index_or self.old.uses.items index d) class }
        requires tracked { IsTracked K.kinds self.old }
        ensures uses { (d : _) → AreApart self.old.uses.items
            → self.new.uses.items ≡ map (stopped
            (stands_at
            (slice_index_or self.old.uses.items index d).offset) place) self.old.uses.items }
        ensures tracked { IsTracked K.kinds self.new }
        ensures capacity { vec_capacity self.new.uses ≡ vec_capacity self.old.uses }
        ensures len { vec_len self.new.uses ≡ vec_len self.old.uses }
        ensures less { self.new.burdens.third ≤ self.old.burdens.third }
        ensures rest { self.new ≡ record self.old {
          uses = self.new.uses;
          burdens = self.new.burdens;
        } }
    {
        self.uses[index].stop = Some(place);
        self.burdens.lose(class);
    }

    /// Adds a use, for which there is room, of no constant: its label, if it has one, is that of an older
    /// use.
    #[inline(always)]
    pub fn push_use(&mut self, site: Use<K>)
        requires uses { vec_len self.old.uses < vec_capacity self.old.uses }
        requires earlier { vec_len self.old.earlier < vec_capacity self.old.earlier }
        requires tracked { IsTracked K.kinds self.old }
        requires known { IfSome (label_of site.target)
            (λ label. IsSome (finmap.get self.old.heads label)) }
        requires target { constant_of site.target ≡ None }
        requires few { self.old.burdens.third < 2 ^ 32 }
        ensures uses { self.new.uses.items ≡ self.old.uses.items ++ site ∷ [] }
        ensures tracked { IsTracked K.kinds self.new }
        ensures uses_capacity { vec_capacity self.new.uses ≡ vec_capacity self.old.uses }
        ensures earlier_capacity { vec_capacity self.new.earlier ≡ vec_capacity self.old.earlier }
        ensures rest { self.new ≡ record self.old {
          uses = self.new.uses;
          earlier = self.new.earlier;
          heads = self.new.heads;
          burdens = self.new.burdens;
        } }
    {
        let class = site.waiting_class();
        let earlier = self.link(site);
        self.burdens.gain(class);
        self.earlier.push_reserved(earlier);
        self.uses.push_reserved(site);
    }

    /// Makes the use that is added next the last of its label, and answers which was the last before.
    #[inline(always)]
    fn link(&mut self, site: Use<K>) -> usize
        requires len { vec_len self.old.uses < 2 ^ 63 }
        requires known { IfSome (label_of site.target)
            (λ label. IsSome (finmap.get self.old.heads label)) }
        ensures earlier { IfSome (label_of site.target) (λ label. result
            ≡ unwrap_or (finmap.get self.old.heads label) 0) }
        ensures heads { self.new.heads ≡ (elim (label_of site.target) [
          | None ↦ self.old.heads
          | Some label ↦ finmap.insert self.old.heads label (length self.old.uses.items + 1)
        ]) }
        ensures rest { self.new ≡ record self.old { heads = self.new.heads } }
    {
        let Some(label) = target_label(site.target) else {
            return 0;
        };
        let earlier = self.heads.get(label.0).unwrap_or(0);
        self.heads.replace(label.0, self.uses.len() + 1);
        earlier
    }

    /// Gives an open use of a label and a class a jump word at the end, and answers the use that the
    /// jump word is.
    #[inline(always)]
    pub fn give_jump(&mut self, index: usize, label: MachLabel, class: Class) -> Use<K>
        requires within { index < length self.old.uses.items }
        requires label { (d : _) → (slice_index_or self.old.uses.items index d).target
            ≡ Label label }
        requires class { (d : _) → IsWaitingClass K.kinds
            (slice_index_or self.old.uses.items index d) class }
        requires short { end_of (seen self.old) + 4 < 2 ^ 31 }
        requires words { length self.old.words.items < self.old.words.capacity }
        requires uses { vec_len self.old.uses < vec_capacity self.old.uses }
        requires earlier { vec_len self.old.earlier < vec_capacity self.old.earlier }
        requires tracked { IsTracked K.kinds self.old }
        requires few { self.old.burdens.third < 2 ^ 32 }
        ensures gives { (d : _) → AreApart self.old.uses.items
            → GivesJump K.kinds (slice_index_or self.old.uses.items index d) (seen self.old)
            (seen self.new) }
        ensures added { AddsUse self.old.uses.items self.new.uses.items result }
        ensures keeps { KeepsQueues K.kinds self.old self.new }
    {
        let place = self.end();
        let target = Target::Label(label);
        let stop = self.stop_of(place, target, K::jump_use());
        self.stop_at(index, place, class);
        self.words.push_reserved(K::jump_word());
        let site = Use {
            offset: place,
            target,
            kind: K::jump_use(),
            stop,
        };
        self.push_use(site);
        site
    }

    /// Gives an open use of a label, which is a far one, a far veneer at the end, and answers the use
    /// that the last word of that is.
    #[inline(never)]
    pub fn give_far(&mut self, index: usize, label: MachLabel) -> Use<K>
        requires within { index < length self.old.uses.items }
        requires label { (d : _) → (slice_index_or self.old.uses.items index d).target
            ≡ Label label }
        requires class { (d : _) → IsWaitingClass K.kinds
            (slice_index_or self.old.uses.items index d) Far }
        requires veneers { (d : _) → IsTrue (K.kinds.veneers
            (slice_index_or self.old.uses.items index d).kind) }
        requires urgency { (d : _) → K.kinds.urgency
            (slice_index_or self.old.uses.items index d).kind ≡ 3 }
        requires short { end_of (seen self.old) + 20 < 2 ^ 31 }
        requires words { length self.old.words.items + length K.kinds.far_words + 1
            ≤ self.old.words.capacity }
        requires uses { vec_len self.old.uses < vec_capacity self.old.uses }
        requires earlier { vec_len self.old.earlier < vec_capacity self.old.earlier }
        requires tracked { IsTracked K.kinds self.old }
        requires few { self.old.burdens.third < 2 ^ 32 }
        ensures gives { (d : _) → AreApart self.old.uses.items
            → GivesFar K.kinds (slice_index_or self.old.uses.items index d) (seen self.old)
            (seen self.new) }
        ensures added { AddsUse self.old.uses.items self.new.uses.items result }
        ensures keeps { KeepsQueues K.kinds self.old self.new }
    {
        let place = self.end();
        let site = self.uses[index];
        let (offset, kind) = push_far_words(&mut self.words, site.kind, place);
        let target = Target::Label(label);
        let stop = self.stop_of(offset, target, kind);
        self.stop_at(index, place, Class::Far);
        let site = Use {
            offset,
            target,
            kind,
            stop,
        };
        self.push_use(site);
        site
    }

    /// Gives a use of a trap its trap word at the end.
    #[inline(never)]
    pub fn give_trap(&mut self, index: usize, code: TrapCode)
        requires within { index < length self.old.uses.items }
        requires target { (d : _) → constant_of
            (slice_index_or self.old.uses.items index d).target ≡ None }
        requires class { (d : _) → IsWaitingClass K.kinds
            (slice_index_or self.old.uses.items index d) Trapping }
        requires short { end_of (seen self.old) + 4 < 2 ^ 31 }
        requires words { length self.old.words.items < self.old.words.capacity }
        requires traps { vec_len self.old.traps < vec_capacity self.old.traps }
        requires tracked { IsTracked K.kinds self.old }
        requires few { self.old.burdens.third < 2 ^ 32 }
        ensures gives { (d : _) → AreApart self.old.uses.items
            → GivesTrap K.kinds (slice_index_or self.old.uses.items index d) code (seen self.old)
            (seen self.new) }
        ensures keeps { KeepsQueues K.kinds self.old self.new }
    {
        let place = self.end();
        self.stop_at(index, place, Class::Trapping);
        self.words.push_reserved(K::trap_word());
        self.traps.push_reserved((place, code));
    }
}
