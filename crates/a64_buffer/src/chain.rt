//! The uses of each label in a chain, so that binding a label visits no other uses, and the loads that
//! wait for a constant in one, so that a copy of it visits those alone.

ghost use Rattle.std.specs.Prelude.{◌≡◌, ◌<◌, false, is_some, length, map, slice_set, slice_index_or};
ghost use Rattle.a64_buffer.specs.Buffer.{reached, closed_at};
ghost use Rattle.a64_buffer.specs.Classes as classes;
ghost use Rattle.a64_buffer.specs.Queues.{AreWaiting};
ghost use Rattle.a64_buffer.specs.Chain.{with_stop, labels_of, emptied, IsChained, IsLast};

use crate::class::Class;
use crate::label_use::MachInstLabelUse;
use crate::queue::Queue;
use crate::queues::close_queued;
use crate::room::Burdens;
use crate::site::Use;
use a64_label_map::LabelMap;

/// The place, where a use of this kind at an offset reaches it.
#[inline(always)]
pub fn reached<K: MachInstLabelUse>(kind: K, offset: u32, place: u32) -> Option<u32>
    ensures { result ≡ reached K.kinds kind offset place }
{
    let ahead = u64::from(place) <= u64::from(offset) + u64::from(kind.max_pos_range());
    let behind = u64::from(offset) <= u64::from(place) + u64::from(kind.max_neg_range());
    if ahead && behind { Some(place) } else { None }
}

/// One more than the index of the last use in the chain of a number, or 0 where there is none.
#[inline(always)]
pub fn last_use(heads: &LabelMap<usize>, number: u32) -> usize
    ensures { (numbers : _) (earlier : _) → IsChained numbers earlier heads.now
        → IsLast numbers number (length numbers) result }
{
    heads.get(number).unwrap_or(0)
}

/// Leaves the chain of a number empty. It takes no memory.
pub fn empty_chain(heads: &mut LabelMap<usize>, number: u32)
    ensures { heads.new ≡ emptied number heads.old }
{
    if heads.contains(number) {
        heads.replace(number, 0);
    }
}

/// Lets a use that has no stop stop at a place, where it reaches that.
#[inline(always)]
fn close_use<K: MachInstLabelUse>(
    uses: &mut [Use<K>],
    queues: &mut [Queue; 5],
    burdens: &mut Burdens,
    index: usize,
    place: u32,
)
    requires index { index < length uses.old }
    requires waiting { AreWaiting K.kinds uses.old queues.old burdens.old }
    ensures uses { (d : _) → uses.new ≡ slice_set uses.old index
        (with_stop K.kinds place (slice_index_or uses.old index d)) }
    ensures waiting { AreWaiting K.kinds uses.new queues.new burdens.new }
{
    let site = uses[index];
    if site.stop.is_some() {
        return;
    }
    // Each arm names its class, so that what depends on the class is settled when it is compiled.
    match site.class() {
        Class::Near => close_as(uses, queues, burdens, index, place, Class::Near),
        Class::Load => close_as(uses, queues, burdens, index, place, Class::Load),
        Class::Trapping => close_as(uses, queues, burdens, index, place, Class::Trapping),
        Class::Middle => close_as(uses, queues, burdens, index, place, Class::Middle),
        Class::Far => close_as(uses, queues, burdens, index, place, Class::Far),
        Class::Direct => close_as(uses, queues, burdens, index, place, Class::Direct),
    }
}

/// Lets a use of this class, which has no stop, stop at a place, in bytes from the start of the code,
/// where it reaches that.
#[inline(always)]
fn close_as<K: MachInstLabelUse>(
    uses: &mut [Use<K>],
    queues: &mut [Queue; 5],
    burdens: &mut Burdens,
    index: usize,
    place: u32,
    class: Class,
)
    requires index { index < length uses.old }
    requires waiting { AreWaiting K.kinds uses.old queues.old burdens.old }
    requires stop { (d : _) → is_some (slice_index_or uses.old index d).stop ≡ false }
    requires class { (d : _) → classes.class K.kinds (slice_index_or uses.old index d) ≡ class }
    ensures uses { (d : _) → uses.new ≡ slice_set uses.old index
        (with_stop K.kinds place (slice_index_or uses.old index d)) }
    ensures waiting { AreWaiting K.kinds uses.new queues.new burdens.new }
{
    let site = uses[index];
    let stop = reached(site.kind, site.offset, place);
    if stop.is_none() {
        return;
    }
    uses[index].stop = stop;
    if class.wants() {
        burdens.lose(class);
        let none = burdens.has_none(class);
        close_queued(queues, uses, class, site.limit(), none);
    }
}

/// Lets each use of a label that has no stop stop at the label's place, where it reaches that.
#[inline(always)]
pub fn close_label<K: MachInstLabelUse>(
    uses: &mut [Use<K>],
    earlier: &[usize],
    heads: &LabelMap<usize>,
    queues: &mut [Queue; 5],
    burdens: &mut Burdens,
    label: u32,
    place: u32,
)
    requires chained { IsChained (labels_of uses.old) earlier.now heads.now }
    requires waiting { AreWaiting K.kinds uses.old queues.old burdens.old }
    ensures uses { uses.new ≡ map (closed_at K.kinds label place) uses.old }
    ensures waiting { AreWaiting K.kinds uses.new queues.new burdens.new }
{
    let mut at = last_use(heads, label);
    while at != 0 {
        let index = at - 1;
        close_use(uses, queues, burdens, index, place);
        at = earlier[index];
    }
}
