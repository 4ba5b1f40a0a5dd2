//! What items need ahead of an island.

ghost use Rattle.std.specs.Prelude.{◌≡◌, ◌^◌, ◌<◌};
ghost use Rattle.a64_assemble.specs.Elements as elements;
ghost use Rattle.a64_assemble.specs.Elements.{elements_of, whole_in};

use a64_emit::{burden_of, light_of};
use a64_inst::{EmitInfo, FrameLayout, Item};

/// How far the next item with words may move open uses ahead, if there is one: its size, 28 bytes for
/// each use of it that may want something of an island, and four for each place for an island before it.
///
/// It is found by a walk, and not in a table: each run of items without words is walked once, for the item
/// before it, so all walks are one pass.
pub fn next_room(items: &[Item], frame: &FrameLayout, info: &EmitInfo) -> Option<u32>
    requires { whole_in (elements_of frame.now info.now items.now) < 2 ^ 31 }
    ensures { result ≡ elements.next_room (elements_of frame.now info.now items.now) }
{
    let mut places: u32 = 0;
    for item in items {
        if let Some(light) = light_of(item, frame, info) {
            if light.growth != 0 {
                return Some(light.growth as u32 - 4 + places);
            }
            continue;
        }
        let extent = burden_of(item, frame, info).extent;
        if extent.size != 0 {
            return Some((extent.size + extent.charge - 4) as u32 + places);
        }
        if extent.charge != 0 {
            places += 4;
        }
    }
    None
}
