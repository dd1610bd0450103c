//! What a device is.
ghost use Rattle.std.specs.Prelude.{◌≡◌, ◌≤◌, ℕ, OnOk, OnErr};
ghost use Rattle.wb_geometry.specs.Image.{Image, sectors_of, overlay, IsPartlyWritten};
ghost use Rattle.wb_geometry.specs.Device.{State, IsDevice, IsInside, IsSameDevice, HasCause, HoldsContent, NothingPending, ContentPasses, Passes, next_count};

/// A call of a device failed.
#[derive(Clone, Copy, Debug, PartialEq, Eq)]
pub struct DeviceFault;

/// A disk, in sectors of 512 bytes, numbered from 0.
///
/// Its meaning is one state (docs/MODEL.md): the content that a read gives and the images that a crash may leave, each
/// where the device tells it, and counts of its faults, syncs and reads, which never fall. A call answers `Err` only
/// where the count of faults rose in it; the count ends at `2 ^ 64 - 1`, where a call may answer `Err` without a rise.
pub trait Device: Drop {
    ghost state: { Self → State };

    /// The number of sectors, which never changes.
    fn sectors(&self) -> u64
        ensures { result ≡ (state self.now).sectors };

    /// Reads whole sectors from sector `at` on, as many as `into` has room for, at least one and inside the device.
    /// After an `Err` there are any bytes in `into`. The content stays.
    fn read(&mut self, at: u64, into: &mut [u8]) -> Result<(), DeviceFault>
        requires { IsInside at into.old (state self.old) }
        ensures ok { OnOk result (HoldsContent at into.new (state self.old)) }
        ensures content { (state self.new).content ≡ (state self.old).content }
        ensures crash { Passes (λ x y. y ≡ x) (state self.old) (state self.new) }
        ensures left { (x : Image) → (state self.old).leaves_now x → (state self.new).leaves_now x }
        ensures reads { (state self.new).reads ≡ next_count (state self.old).reads }
        ensures syncs { (state self.new).syncs ≡ (state self.old).syncs }
        ensures same { IsSameDevice (state self.old) (state self.new) }
        ensures cause { HasCause (state self.old) (state self.new) result };

    /// Writes whole sectors from sector `at` on, at least one and inside the device. After an `Err` each of them has its
    /// former or its new content. All other sectors stay.
    fn write(&mut self, at: u64, bytes: &[u8]) -> Result<(), DeviceFault>
        requires { IsInside at bytes.now (state self.old) }
        ensures ok { OnOk result (ContentPasses (λ x y. y ≡ overlay at (sectors_of bytes.now) x) (state self.old) (state self.new)) }
        ensures err { OnErr result (ContentPasses (IsPartlyWritten at (sectors_of bytes.now)) (state self.old) (state self.new)) }
        ensures crash { Passes (IsPartlyWritten at (sectors_of bytes.now)) (state self.old) (state self.new) }
        ensures reads { (state self.new).reads ≡ (state self.old).reads }
        ensures syncs { (state self.new).syncs ≡ (state self.old).syncs }
        ensures same { IsSameDevice (state self.old) (state self.new) }
        ensures cause { HasCause (state self.old) (state self.new) result };

    /// Makes sure of all that was written: after an `Ok` a crash leaves what a read gives. The content stays.
    fn sync(&mut self) -> Result<(), DeviceFault>
        ensures ok { OnOk result (NothingPending (state self.new)) }
        ensures content { (state self.new).content ≡ (state self.old).content }
        ensures crash { Passes (λ x y. y ≡ x) (state self.old) (state self.new) }
        ensures reads { (state self.new).reads ≡ (state self.old).reads }
        ensures synced { OnOk result ((state self.new).syncs ≡ next_count (state self.old).syncs) }
        ensures not_synced { OnErr result (((state self.old).syncs ≤ (state self.new).syncs)
            × ((state self.new).syncs ≤ next_count (state self.old).syncs)) }
        ensures same { IsSameDevice (state self.old) (state self.new) }
        ensures cause { HasCause (state self.old) (state self.new) result };

    ghost sound: { (d : Self) → IsDevice (state d) };
}
