//! Copies of constants in islands.

ghost use Rattle.std.specs.Prelude.{◌≡◌, ◌+◌, ◌*◌, ◌/◌, ◌%◌, ◌^◌, ◌<◌, ◌≤◌, ◌++◌, [], IfSome, IsSome, length, map, replicate, vec_capacity};
ghost use Rattle.std.specs.FinMap as finmap;
ghost use Rattle.a64_buffer.specs.Buffer.{end_of};
ghost use Rattle.a64_buffer.specs.Chain.{loads_of, IsChained};
ghost use Rattle.a64_buffer.specs.Pieces as pieces;
ghost use Rattle.a64_buffer.specs.Queues.{AreBurdens};
ghost use Rattle.a64_buffer.specs.Steps.{stopped, waits_for, GivesCopy};

use crate::chain::{empty_chain, last_use};
use crate::class::Class;
use crate::label_use::MachInstLabelUse;
use crate::parts::Parts;
use crate::room::Burdens;
use crate::site::Use;
use a64_base::VCodeConstant;
use a64_label_map::LabelMap;
use a64_words::Words;

/// How many zero words bring a place to a multiple of a size.
fn padding(place: u32, size: u32) -> u32
    requires { 0 < size }
    ensures { result ≡ pieces.padding place size }
{
    (size - place % size) % size / 4
}

/// Adds zero words to words that have room for them.
fn push_zeros(words: &mut Words, count: u32)
    requires { length words.old.items + count ≤ words.old.capacity }
    ensures items { words.new.items ≡ words.old.items ++ replicate count 0 }
    ensures capacity { words.old.capacity ≤ words.new.capacity }
{
    for _i in 0..count {
        words.push_reserved(0);
    }
}

/// Lets all open loads of a constant stop at a place: it visits no other uses.
fn stop_loads<K: MachInstLabelUse>(
    uses: &mut [Use<K>],
    earlier: &[usize],
    loads: &LabelMap<usize>,
    burdens: &mut Burdens,
    constant: u32,
    place: u32,
)
    requires chained { IsChained (loads_of uses.old) earlier.now loads.now }
    requires burdens { AreBurdens K.kinds uses.old burdens.old }
    ensures uses { uses.new ≡ map (stopped (waits_for constant) place) uses.old }
    ensures burdens { AreBurdens K.kinds uses.new burdens.new }
{
    let mut at = last_use(loads, constant);
    while at != 0 {
        let index = at - 1;
        uses[index].stop = Some(place);
        burdens.lose(Class::Load);
        at = earlier[index];
    }
}

impl<'c, K: MachInstLabelUse> Parts<'c, K> {
    ghost use Rattle.a64_buffer.specs.Sound.{seen};
    ghost use Rattle.a64_buffer.specs.Space.{IsTracked, KeepsQueues};

    /// Lets all open loads of a constant stop at a place.
    fn stop_loads(&mut self, constant: u32, place: u32)
        requires tracked { IsTracked K.kinds self.old }
        ensures uses { self.new.uses.items ≡ map
            (stopped (waits_for constant) place) self.old.uses.items }
        ensures capacity { vec_capacity self.new.uses ≡ vec_capacity self.old.uses }
        ensures tracked { IsTracked K.kinds self.new }
        ensures rest { self.new ≡ record self.old {
          uses = self.new.uses;
          loads = self.new.loads;
          burdens = self.new.burdens;
        } }
    {
        stop_loads(
            &mut self.uses,
            &self.earlier,
            &self.loads,
            &mut self.burdens,
            constant,
            place,
        );
        empty_chain(&mut self.loads, constant);
    }

    /// Gives all open loads of a constant a copy of it at the end.
    #[inline(never)]
    pub fn give_copy(&mut self, constant: VCodeConstant)
        requires known { IsSome (finmap.get (seen self.old).constants constant.0) }
        requires short { end_of (seen self.old) + 28 < 2 ^ 31 }
        requires words { length self.old.words.items + 7 ≤ self.old.words.capacity }
        requires tracked { IsTracked K.kinds self.old }
        ensures gives { IfSome (finmap.get (seen self.old).constants constant.0)
            (λ content. GivesCopy K.kinds constant.0 content (seen self.old) (seen self.new)) }
        ensures keeps { KeepsQueues K.kinds self.old self.new }
    {
        let constants = self.constants;
        let Some(bytes) = constants.bytes_of(constant) else {
            unreachable!()
        };
        let zeros = padding(self.end(), bytes.len() as u32);
        push_zeros(&mut self.words, zeros);
        let place = self.end();
        self.words.extend_reserved(bytes);
        self.stop_loads(constant.0, place);
    }
}
