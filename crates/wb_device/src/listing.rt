//! A device for tests, which lists and counts the calls of another.
ghost use Rattle.std.specs.Prelude.{◌≡◌, ◌/◌, ◌≤◌, [], length, IfOk, OnOk, OnErr};
ghost use Rattle.wb_geometry.specs.Image.{Image, sectors_of, overlay, IsPartlyWritten};
ghost use Rattle.wb_geometry.specs.Device.{IsInside, IsSameDevice, HasCause, HoldsContent, NothingPending, ContentPasses, Passes, next_count};

use crate::{Device, DeviceFault};
use std::alloc::{AllocError, Global};

const SECTOR_BYTES: usize = 512;

/// A call of a device, with the sector at which it begins and how many it takes.
#[derive(Clone, Copy, Debug, PartialEq, Eq)]
pub enum DeviceCall {
    Read { at: u64, sectors: u64 },
    Write { at: u64, sectors: u64 },
    Sync,
}

/// How many calls of each kind there were, those that failed too. Each count ends at `2 ^ 64 - 1`.
#[derive(Clone, Copy, Debug, PartialEq, Eq)]
pub struct CallCounts {
    pub reads: u64,
    pub writes: u64,
    pub syncs: u64,
}

/// A device that passes each call on to the one within, and lists and counts it. It tells what the one within tells,
/// takes memory for its list only when it is made, and never fails by itself.
#[derive(Drop)]
pub struct ListingDevice<D: Device> {
    inner: D,
    calls: Vec<DeviceCall>,
    counts: CallCounts,
}

impl<D: Device> ListingDevice<D> {
    ghost use Rattle.wb_device.specs.Listing.{device_within, listed_calls, listing_room, call_counts, no_calls, counted, IsListed};

    /// A device over this one, with room to list so many calls. Those behind them are counted alone.
    pub fn over(alloc: Global, inner: D, room: usize) -> Result<ListingDevice<D>, AllocError>
        ensures within { IfOk result (λ d. device_within d ≡ inner) }
        ensures calls { IfOk result (λ d. listed_calls d ≡ []) }
        ensures room { IfOk result (λ d. listing_room d ≡ room) }
        ensures counts { IfOk result (λ d. call_counts d ≡ no_calls) }
    {
        Ok(ListingDevice {
            inner,
            calls: Vec::with_capacity(alloc, room)?,
            counts: CallCounts {
                reads: 0,
                writes: 0,
                syncs: 0,
            },
        })
    }

    /// The calls that were listed, in order.
    pub fn calls(&self) -> &[DeviceCall]
        ensures { result.now ≡ listed_calls self.now }
    {
        self.calls.as_slice()
    }

    /// How many calls there were.
    pub fn counts(&self) -> CallCounts
        ensures { result ≡ call_counts self.now }
    {
        self.counts
    }

    /// The device within.
    pub fn inner(&self) -> &D
        ensures { result.now ≡ device_within self.now }
    {
        &self.inner
    }

    /// The device within, given back.
    pub fn into_inner(self) -> D
        ensures { result ≡ device_within self }
    {
        let ListingDevice { inner, .. } = self;
        inner
    }

    // Counts a call, and lists it where there is room.
    fn list(&mut self, call: DeviceCall)
        ensures listed { IsListed call self.old self.new }
        ensures within { device_within self.new ≡ device_within self.old }
    {
        if self.calls.len() < self.calls.capacity() {
            self.calls.push_reserved(call);
        }
        self.counts.add(call);
    }
}

impl CallCounts {
    ghost use Rattle.wb_device.specs.Listing.{counted};

    // Counts one more call.
    fn add(&mut self, call: DeviceCall)
        ensures { self.new ≡ counted call self.old }
    {
        match call {
            DeviceCall::Read { .. } => self.reads = self.reads.saturating_add(1),
            DeviceCall::Write { .. } => self.writes = self.writes.saturating_add(1),
            DeviceCall::Sync => self.syncs = self.syncs.saturating_add(1),
        }
    }
}

impl<D: Device> Device for ListingDevice<D> {
    ghost use Rattle.wb_device.specs.declared.listing.DeviceCall.TheVariants.{Read, Write, Sync};
    ghost use Rattle.wb_device.specs.Listing.{device_within, IsListed};

    ghost state = { λ d. D.state (device_within d) };

    ghost sound = { λ d. D.sound (device_within d) };

    fn sectors(&self) -> u64 {
        self.inner.sectors()
    }

    fn read(&mut self, at: u64, into: &mut [u8]) -> Result<(), DeviceFault>
        requires { IsInside at into.old (D.state (device_within self.old)) }
        ensures ok { OnOk result (HoldsContent at into.new (D.state (device_within self.old))) }
        ensures content { (D.state (device_within self.new)).content ≡ (D.state (device_within self.old)).content }
        ensures crash { Passes (λ x y. y ≡ x) (D.state (device_within self.old)) (D.state (device_within self.new)) }
        ensures left { (x : Image) → (D.state (device_within self.old)).leaves_now x → (D.state (device_within self.new)).leaves_now x }
        ensures reads { (D.state (device_within self.new)).reads ≡ next_count (D.state (device_within self.old)).reads }
        ensures syncs { (D.state (device_within self.new)).syncs ≡ (D.state (device_within self.old)).syncs }
        ensures same { IsSameDevice (D.state (device_within self.old)) (D.state (device_within self.new)) }
        ensures cause { HasCause (D.state (device_within self.old)) (D.state (device_within self.new)) result }
        ensures listed { IsListed (Read at (length into.old / 512)) self.old self.new }
    {
        self.list(DeviceCall::Read {
            at,
            sectors: (into.len() / SECTOR_BYTES) as u64,
        });
        self.inner.read(at, into)
    }

    fn write(&mut self, at: u64, bytes: &[u8]) -> Result<(), DeviceFault>
        requires { IsInside at bytes.now (D.state (device_within self.old)) }
        ensures ok { OnOk result (ContentPasses (λ x y. y ≡ overlay at (sectors_of bytes.now) x) (D.state (device_within self.old)) (D.state (device_within self.new))) }
        ensures err { OnErr result (ContentPasses (IsPartlyWritten at (sectors_of bytes.now)) (D.state (device_within self.old)) (D.state (device_within self.new))) }
        ensures crash { Passes (IsPartlyWritten at (sectors_of bytes.now)) (D.state (device_within self.old)) (D.state (device_within self.new)) }
        ensures reads { (D.state (device_within self.new)).reads ≡ (D.state (device_within self.old)).reads }
        ensures syncs { (D.state (device_within self.new)).syncs ≡ (D.state (device_within self.old)).syncs }
        ensures same { IsSameDevice (D.state (device_within self.old)) (D.state (device_within self.new)) }
        ensures cause { HasCause (D.state (device_within self.old)) (D.state (device_within self.new)) result }
        ensures listed { IsListed (Write at (length bytes.now / 512)) self.old self.new }
    {
        self.list(DeviceCall::Write {
            at,
            sectors: (bytes.len() / SECTOR_BYTES) as u64,
        });
        self.inner.write(at, bytes)
    }

    fn sync(&mut self) -> Result<(), DeviceFault>
        ensures ok { OnOk result (NothingPending (D.state (device_within self.new))) }
        ensures content { (D.state (device_within self.new)).content ≡ (D.state (device_within self.old)).content }
        ensures crash { Passes (λ x y. y ≡ x) (D.state (device_within self.old)) (D.state (device_within self.new)) }
        ensures reads { (D.state (device_within self.new)).reads ≡ (D.state (device_within self.old)).reads }
        ensures synced { OnOk result ((D.state (device_within self.new)).syncs ≡ next_count (D.state (device_within self.old)).syncs) }
        ensures not_synced { OnErr result (((D.state (device_within self.old)).syncs ≤ (D.state (device_within self.new)).syncs)
            × ((D.state (device_within self.new)).syncs ≤ next_count (D.state (device_within self.old)).syncs)) }
        ensures same { IsSameDevice (D.state (device_within self.old)) (D.state (device_within self.new)) }
        ensures cause { HasCause (D.state (device_within self.old)) (D.state (device_within self.new)) result }
        ensures listed { IsListed Sync self.old self.new }
    {
        self.list(DeviceCall::Sync);
        self.inner.sync()
    }
}
