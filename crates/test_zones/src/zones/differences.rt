//! What leads from one zone to another.

use crate::refusal::Refusal;
use crate::zones::lines::push;
use crate::zones::updates::push_of_update;
use std::alloc::Global;
use update_lines::items_text;
use zone_core::{Update, Zone};
use zone_tools::operations_between;

/// Appends the operations from one zone to another, as item lines, and the serial of the one after them.
pub fn push_difference(
    alloc: Global,
    old: &Zone,
    new: &Zone,
    answer: &mut Vec<u8>,
) -> Result<(), Refusal> {
    if new.origin() != old.origin() {
        return push("another origin", answer);
    }
    let update = Update::build(Vec::new(alloc), operations_between(alloc, old, new)?)?;
    push(items_text(alloc, &update)?.as_str(), answer)?;
    push("serial ", answer)?;
    push_of_update(alloc, old, "serial-after", &update, answer)
}
