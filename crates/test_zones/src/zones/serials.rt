//! Rows of serials.

use crate::refusal::Refusal;
use crate::zones::lines::push;
use crate::zones::parsed_rows::number;
use std::alloc::Global;
use zone_core::{serial_add, serial_less};

/// Appends whether a serial is less than another.
pub fn push_less(first: &[u8], second: &[u8], answer: &mut Vec<u8>) -> Result<(), Refusal> {
    let is_less = serial_less(number(first), number(second));
    push(if is_less { "less" } else { "not less" }, answer)
}

/// Appends the sum of a serial and a number, which is below 2 to the 31.
pub fn push_sum(
    alloc: Global,
    serial: &[u8],
    more: &[u8],
    answer: &mut Vec<u8>,
) -> Result<(), Refusal> {
    let more = number(more);
    if more < 0x8000_0000 {
        let sum = serial_add(number(serial), more);
        push(format!(in alloc; "{sum}")?.as_str(), answer)
    } else {
        push("too much", answer)
    }
}
