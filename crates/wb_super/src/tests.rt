//! Rows of the superblock, worked by hand.
use std::alloc::{AllocError, Global};
use wb_device::{FaultPlan, MemoryDevice, PlannedFault};

mod formatting;
mod refusing;

/// The calls of a device that fail: this one, and each from the stop on.
#[derive(Clone, Copy, Debug)]
struct Planned {
    fault: Option<PlannedFault>,
    stop: Option<u64>,
}

/// No call fails.
const NOTHING: Planned = Planned {
    fault: None,
    stop: None,
};

/// A device of these bytes, of which the planned calls fail.
fn device_of(alloc: Global, bytes: &[u8], planned: &Planned) -> Result<MemoryDevice, AllocError> {
    let faults = Vec::from_slice(alloc, planned.fault.as_slice())?;
    let plan = FaultPlan {
        faults,
        stop: planned.stop,
    };
    MemoryDevice::of(alloc, Vec::from_slice(alloc, bytes)?, plan)
}

/// The call of a fault, with the sectors that it stores before, and the stop.
fn plan_of(fault: Option<(u64, u64)>, stop: Option<u64>) -> Planned {
    match fault {
        Some((call, sectors)) => Planned {
            fault: Some(PlannedFault { call, sectors }),
            stop,
        },
        None => Planned { fault: None, stop },
    }
}
