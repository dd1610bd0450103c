//! A device in memory that fails as planned, and that crashes.
use crate::medium::Medium;
use crate::planned::fault_at;
use crate::{Device, DeviceFault, FaultPlan};
use std::alloc::{AllocError, Global};

const SECTOR_BYTES: usize = 512;

/// A device in memory that fails as planned. It tells its content and the images that a crash may leave, for which it
/// keeps a list of all that was done to it. Its calls, each read, write and sync, are numbered from 0.
#[derive(Debug, Drop)]
pub struct MemoryDevice {
    medium: Medium,
    plan: FaultPlan,
    calls: u64,
    faults: u64,
    starved: u64,
    syncs: u64,
    reads: u64,
}

impl MemoryDevice {
    ghost use Rattle.std.specs.Prelude.{◌≡◌, [], None, IfOk, length, ◌%◌};
    ghost use Rattle.wb_geometry.specs.Image.{sectors_of};
    ghost use Rattle.wb_geometry.specs.Device.{next_count};
    ghost use Rattle.wb_device.specs.Disk.{crash_image, IsFresh, memory_state, memory_content, memory_plan, memory_calls, memory_starved, next_fault};

    /// A device with the whole sectors of these bytes, all of them synced; what is left over behind them is dropped.
    pub fn of(alloc: Global, bytes: Vec<u8>, plan: FaultPlan) -> Result<MemoryDevice, AllocError>
        ensures content { IfOk result (λ d. memory_content d ≡ sectors_of bytes.items) }
        ensures plan { IfOk result (λ d. memory_plan d ≡ plan) }
        ensures fresh { IfOk result IsFresh }
    {
        Ok(MemoryDevice {
            medium: Medium::of(alloc, bytes)?,
            plan,
            calls: 0,
            faults: 0,
            starved: 0,
            syncs: 0,
            reads: 0,
        })
    }

    /// A device of an image that a crash now may leave, which fails at no call. For the i-th sector, by rising number,
    /// that was written since the last sync, the candidates are the synced content and then the written contents in
    /// order; the one taken is `choice[i % choice.len()]` modulo their number. An empty choice takes the synced content.
    pub fn crashed(&self, alloc: Global, choice: &[u8]) -> Result<MemoryDevice, AllocError>
        ensures content { IfOk result (λ d. memory_content d ≡ crash_image choice.now self.now) }
        ensures left { (memory_state self.now).leaves_now (crash_image choice.now self.now) }
        ensures plan { IfOk result (λ d. ((memory_plan d).faults.items ≡ []) × ((memory_plan d).stop ≡ None)) }
        ensures fresh { IfOk result IsFresh }
    {
        let bytes = self.medium.crashed(alloc, choice)?;
        let plan = FaultPlan {
            faults: Vec::new(alloc),
            stop: None,
        };
        MemoryDevice::of(alloc, bytes, plan)
    }

    /// The bytes of all sectors, given back.
    pub fn into_bytes(self) -> Vec<u8>
        ensures content { memory_content self ≡ sectors_of result.items }
        ensures whole { length result.items % 512 ≡ 0 }
    {
        let MemoryDevice { medium, .. } = self;
        medium.into_bytes()
    }

    /// The bytes of all sectors.
    pub fn bytes(&self) -> &[u8]
        ensures content { memory_content self.now ≡ sectors_of result.now }
        ensures whole { length result.now % 512 ≡ 0 }
    {
        self.medium.bytes()
    }

    /// How many calls there were; the count ends at `2 ^ 64 - 1`.
    pub fn calls(&self) -> u64
        ensures { result ≡ memory_calls self.now }
    {
        self.calls
    }

    /// How many calls found no memory; the count ends at `2 ^ 64 - 1`.
    pub fn starved(&self) -> u64
        ensures { result ≡ memory_starved self.now }
    {
        self.starved
    }

    // Begins the next call: where it is planned to fail, how many sectors a write stores before.
    fn begun(&mut self) -> Option<u64>
        ensures planned { result ≡ next_fault self.old }
        ensures calls { self.new ≡ record self.old { calls = next_count self.old.calls } }
    {
        let call = self.calls;
        self.calls = call.saturating_add(1);
        fault_at(&self.plan, call)
    }

    // The call fails.
    fn failed(&mut self) -> Result<(), DeviceFault>
        ensures err { result ≡ Rattle.std.specs.Prelude.Err record {} }
        ensures faults { self.new ≡ record self.old { faults = next_count self.old.faults } }
    {
        self.faults = self.faults.saturating_add(1);
        Err(DeviceFault)
    }

    // The call finds no memory.
    fn hungry(&mut self) -> Result<(), DeviceFault>
        ensures err { result ≡ Rattle.std.specs.Prelude.Err record {} }
        ensures faults { self.new ≡ record self.old { faults = next_count self.old.faults; starved = next_count self.old.starved } }
    {
        self.starved = self.starved.saturating_add(1);
        self.failed()
    }
}

impl Device for MemoryDevice {
    ghost use Rattle.std.specs.Prelude.{◌≡◌, ◌≤◌, ◌++◌, ◌∷◌, [], Some, IsSome, OnOk, OnErr};
    ghost use Rattle.wb_geometry.specs.Image.{Image, sectors_of, overlay, IsPartlyWritten};
    ghost use Rattle.wb_geometry.specs.Device.{IsInside, IsSameDevice, HasCause, HoldsContent, NothingPending, ContentPasses, Passes, next_count};
    ghost use Rattle.wb_geometry.specs.Disk.{Write, Sync};
    ghost use Rattle.wb_device.specs.Disk.{memory_state, memory_is_device, memory_changes, memory_starved, next_fault, FailsAsPlanned, IsNextCall, StopsThere, StoresFront};

    ghost state = { memory_state };

    ghost sound = { memory_is_device };

    fn sectors(&self) -> u64 {
        self.medium.sectors()
    }

    fn read(&mut self, at: u64, into: &mut [u8]) -> Result<(), DeviceFault>
        requires { IsInside at into.old (memory_state self.old) }
        ensures ok { OnOk result (HoldsContent at into.new (memory_state self.old)) }
        ensures content { (memory_state self.new).content ≡ (memory_state self.old).content }
        ensures crash { Passes (λ x y. y ≡ x) (memory_state self.old) (memory_state self.new) }
        ensures left { (x : Image) → (memory_state self.old).leaves_now x → (memory_state self.new).leaves_now x }
        ensures reads { (memory_state self.new).reads ≡ next_count (memory_state self.old).reads }
        ensures syncs { (memory_state self.new).syncs ≡ (memory_state self.old).syncs }
        ensures same { IsSameDevice (memory_state self.old) (memory_state self.new) }
        ensures cause { HasCause (memory_state self.old) (memory_state self.new) result }

        // It fails where that is planned, and nowhere else.
        ensures planned { FailsAsPlanned self.old self.new result }
        ensures planned_only { OnErr result (IsSome (next_fault self.old)) }
        ensures next { IsNextCall self.old self.new }
        ensures stopped { StopsThere self.old self.new }
        ensures starved { memory_starved self.new ≡ memory_starved self.old }

        // It records nothing.
        ensures changes { memory_changes self.new ≡ memory_changes self.old }
    {
        self.reads = self.reads.saturating_add(1);
        if self.begun().is_some() {
            return self.failed();
        }
        let start = at as usize * SECTOR_BYTES;
        into.copy_from_slice(&self.medium.bytes()[start..start + into.len()]);
        Ok(())
    }

    fn write(&mut self, at: u64, bytes: &[u8]) -> Result<(), DeviceFault>
        requires { IsInside at bytes.now (memory_state self.old) }
        ensures ok { OnOk result (ContentPasses (λ x y. y ≡ overlay at (sectors_of bytes.now) x) (memory_state self.old) (memory_state self.new)) }
        ensures err { OnErr result (ContentPasses (IsPartlyWritten at (sectors_of bytes.now)) (memory_state self.old) (memory_state self.new)) }
        ensures crash { Passes (IsPartlyWritten at (sectors_of bytes.now)) (memory_state self.old) (memory_state self.new) }
        ensures reads { (memory_state self.new).reads ≡ (memory_state self.old).reads }
        ensures syncs { (memory_state self.new).syncs ≡ (memory_state self.old).syncs }
        ensures same { IsSameDevice (memory_state self.old) (memory_state self.new) }
        ensures cause { HasCause (memory_state self.old) (memory_state self.new) result }

        // It fails where that is planned, and else only where it finds no memory.
        ensures planned { FailsAsPlanned self.old self.new result }
        ensures next { IsNextCall self.old self.new }
        ensures stopped { StopsThere self.old self.new }
        ensures front { StoresFront at bytes.now self.old self.new }
        ensures starved { next_fault self.old ≡ Some 0 → memory_starved self.new ≡ memory_starved self.old }

        // It records what it wrote, and nothing else.
        ensures recorded { OnOk result (memory_changes self.new ≡ memory_changes self.old ++ Write at (sectors_of bytes.now) ∷ []) }
    {
        match self.begun() {
            None => match self.medium.store(at, bytes) {
                Ok(()) => Ok(()),
                Err(_) => self.hungry(),
            },
            Some(0) => self.failed(),
            Some(count) => match self.medium.store_front(at, bytes, count) {
                Ok(()) => self.failed(),
                Err(_) => self.hungry(),
            },
        }
    }

    fn sync(&mut self) -> Result<(), DeviceFault>
        ensures ok { OnOk result (NothingPending (memory_state self.new)) }
        ensures content { (memory_state self.new).content ≡ (memory_state self.old).content }
        ensures crash { Passes (λ x y. y ≡ x) (memory_state self.old) (memory_state self.new) }
        ensures reads { (memory_state self.new).reads ≡ (memory_state self.old).reads }
        ensures synced { OnOk result ((memory_state self.new).syncs ≡ next_count (memory_state self.old).syncs) }
        ensures not_synced { OnErr result (((memory_state self.old).syncs ≤ (memory_state self.new).syncs)
            × ((memory_state self.new).syncs ≤ next_count (memory_state self.old).syncs)) }
        ensures same { IsSameDevice (memory_state self.old) (memory_state self.new) }
        ensures cause { HasCause (memory_state self.old) (memory_state self.new) result }

        // It fails where that is planned, and else only where it finds no memory.
        ensures planned { FailsAsPlanned self.old self.new result }
        ensures next { IsNextCall self.old self.new }
        ensures stopped { StopsThere self.old self.new }
        ensures starved { IsSome (next_fault self.old) → memory_starved self.new ≡ memory_starved self.old }

        // It records that it was done, and nothing else.
        ensures recorded { OnOk result (memory_changes self.new ≡ memory_changes self.old ++ Sync ∷ []) }
        ensures not_recorded { OnErr result (memory_changes self.new ≡ memory_changes self.old) }
    {
        match self.begun() {
            None => match self.medium.keep() {
                Ok(()) => {
                    self.syncs = self.syncs.saturating_add(1);
                    Ok(())
                }
                Err(_) => self.hungry(),
            },
            Some(_) => self.failed(),
        }
    }
}
