//! The writing of one block, run by run.
ghost use Rattle.std.specs.Prelude.{◌≡◌, ◌+◌, ◌*◌, ◌≤◌, ◌∷◌, [], length, OnOk, OnErr};
ghost use Rattle.wb_geometry.specs.History.{Write, put, PutsPartly};
ghost use Rattle.wb_geometry.specs.Device.{HasCause, IsSameDevice, ContentPasses, Passes};
ghost use Rattle.wb_runs.specs.Runs.{FindsRun};

use wb_device::{Device, DeviceFault};

/// The bytes of a sector.
const SECTOR_BYTES: usize = 512;

/// The sectors of a block.
const BLOCK_SECTORS: u64 = 8;

/// The first run of set bits from bit `from` on: its first bit, and how many it has.
fn next_run(bits: u8, from: usize) -> Option<(usize, usize)>
    requires { from ≤ 8 }
    ensures { FindsRun bits from result }
{
    let rest = u16::from(bits) >> from;
    if rest == 0 {
        return None;
    }
    let first = from + rest.trailing_zeros() as usize;
    let count = (u16::from(bits) >> first).trailing_ones() as usize;
    Some((first, count))
}

/// The first sector of a block that lies inside a device of so many sectors.
fn first_sector(block: u64, sectors: u64) -> u64
    requires { 8 * block + 8 ≤ sectors }
    ensures { result ≡ 8 * block }
{
    prove!(block < sectors / BLOCK_SECTORS);
    block * BLOCK_SECTORS
}

/// Writes the dirty sectors of a block of 4096 bytes to their places on a device, one write for each run of them, by rising
/// sector. It ends at the first call that fails, which is an `Err`; then, and in a crash, each dirty sector is as it was or
/// as the block has it. Nothing is synced.
pub fn write_block<B: Device>(
    backing: &mut B,
    block: u64,
    bits: u8,
    payload: &[u8],
) -> Result<(), DeviceFault>
    requires room { 8 * block + 8 ≤ (B.state backing.old).sectors }
    requires size { length payload.now ≡ 4096 }
    ensures ok { OnOk result (ContentPasses (λ x y. y ≡ put x (Write 0 block bits payload.now)) (B.state backing.old) (B.state backing.new)) }
    ensures err { OnErr result (ContentPasses (PutsPartly (Write 0 block bits payload.now ∷ [])) (B.state backing.old) (B.state backing.new)) }
    ensures crash { Passes (PutsPartly (Write 0 block bits payload.now ∷ [])) (B.state backing.old) (B.state backing.new) }
    ensures reads { (B.state backing.new).reads ≡ (B.state backing.old).reads }
    ensures syncs { (B.state backing.new).syncs ≡ (B.state backing.old).syncs }
    ensures same { IsSameDevice (B.state backing.old) (B.state backing.new) }
    ensures cause { HasCause (B.state backing.old) (B.state backing.new) result }
{
    let start = first_sector(block, backing.sectors());
    let mut from = 0;
    while let Some((first, count)) = next_run(bits, from) {
        from = first + count;
        let run = &payload[first * SECTOR_BYTES..from * SECTOR_BYTES];
        backing.write(start + first as u64, run)?;
    }
    Ok(())
}
