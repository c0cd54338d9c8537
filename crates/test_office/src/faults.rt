//! What refusals say.

use office_store::StoreFault;
use office_wire::{Refusal, ServeFault};
use std::alloc::{AllocError, Global};

const REFUSALS: [Refusal; 7] = [
    Refusal::BadHead,
    Refusal::NoCaller,
    Refusal::NoLength,
    Refusal::BodyTooLarge,
    Refusal::BadPart,
    Refusal::NoRoute,
    Refusal::CutShort,
];

const ENDS: [ServeFault; 4] = [
    ServeFault::ReadFailed,
    ServeFault::WriteFailed,
    ServeFault::StreamTooLong,
    ServeFault::NoMemory,
];

const STORES: [StoreFault; 5] = [
    StoreFault::ZoneExists,
    StoreFault::NoZone,
    StoreFault::SerialNotGreater,
    StoreFault::WrongVersion,
    StoreFault::BadRow,
];

/// Appends the number and the words of each refusal of a request and of a store, and of each fault by which a stream ends.
pub fn push_faults(alloc: Global, answer: &mut Vec<u8>) -> Result<(), AllocError> {
    for refusal in REFUSALS {
        let number = refusal.number();
        answer.extend_from_slice(format!(in alloc; "refused {number}: {refusal}\n")?.as_bytes())?;
    }
    for fault in STORES {
        let number = fault.number();
        answer.extend_from_slice(format!(in alloc; "refused {number}: {fault}\n")?.as_bytes())?;
    }
    for fault in ENDS {
        let number = fault.number();
        answer.extend_from_slice(format!(in alloc; "refused {number}: {fault}\n")?.as_bytes())?;
    }
    Ok(())
}
