//! A plan of the calls that fail.
ghost use Rattle.std.specs.Prelude.{◌≡◌};
ghost use Rattle.wb_device.specs.Planned.{planned};

/// A call that fails. Where it is a write, it first stores so many of its leading sectors, at most its own.
#[derive(Clone, Copy, Debug, PartialEq, Eq)]
pub struct PlannedFault {
    pub call: u64,
    pub sectors: u64,
}

/// The calls that fail, of those numbered from 0. From call `stop` on each fails and does nothing. Where two faults
/// are planned for one call, the first in the list counts.
#[derive(Debug, Drop)]
pub struct FaultPlan {
    pub faults: Vec<PlannedFault>,
    pub stop: Option<u64>,
}

// Whether this call comes no earlier than the stop.
pub(crate) fn is_stopped(stop: Option<u64>, call: u64) -> bool
    ensures { result ≡ Rattle.wb_device.specs.Planned.is_stopped stop call }
{
    match stop {
        Some(stop) => stop <= call,
        None => false,
    }
}

// Where this call is planned to fail, how many sectors a write stores before.
pub(crate) fn fault_at(plan: &FaultPlan, call: u64) -> Option<u64>
    ensures { result ≡ planned plan.now call }
{
    if is_stopped(plan.stop, call) {
        return Some(0);
    }
    for fault in &plan.faults {
        if fault.call == call {
            return Some(fault.sectors);
        }
    }
    None
}
