//! Listings: a line for each item.

ghost use Rattle.std.specs.Prelude.{◌≡◌, ◌++◌, IfOk, OnOk};
ghost use Rattle.std.specs.String.{string_bytes};
ghost use Rattle.a64_print.specs.InstTexts as texts;

use crate::print::push_inst;
use a64_base::push_numbered;
use a64_inst::{FrameLayout, Item};
use std::alloc::{AllocError, Global};

/// Appends the text of an item: that of its instruction, or `label3:` where a label is bound.
///
/// # Errors
///
/// Want of memory.
fn push_item(out: &mut String, item: &Item, frame: &FrameLayout) -> Result<(), AllocError>
    ensures { OnOk result
        (string_bytes out.new ≡ string_bytes out.old ++ texts.item_text frame.now item.now) }
{
    match item {
        Item::Bind(label) => {
            push_numbered(out, "label", label.0)?;
            out.push_str(":")
        }
        Item::Emit { inst, .. } => push_inst(out, inst, frame),
    }
}

/// Appends the line of an item.
fn push_line(out: &mut String, item: &Item, frame: &FrameLayout) -> Result<(), AllocError>
    ensures { OnOk result
        (string_bytes out.new ≡ string_bytes out.old ++ texts.item_line frame.now item.now) }
{
    push_item(out, item, frame)?;
    out.push_str("\n")
}

/// The listing of items, in a frame: a line for each, ended by a line feed.
///
/// # Errors
///
/// Want of memory.
pub fn listing(alloc: Global, items: &[Item], frame: &FrameLayout) -> Result<String, AllocError>
    ensures { IfOk result (λ text. string_bytes text ≡ texts.listing_of frame.now items.now) }
{
    let mut text = String::new(alloc);
    for item in items {
        push_line(&mut text, item, frame)?;
    }
    Ok(text)
}
