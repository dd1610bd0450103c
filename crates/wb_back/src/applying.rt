//! The writing of a plan to the backing device.
ghost use Rattle.std.specs.Prelude.{◌≡◌, ◌≤◌, OnOk, OnErr};
ghost use Rattle.wb_geometry.specs.History.{after, PutsPartly};
ghost use Rattle.wb_geometry.specs.Device.{HasCause, IsSameDevice, NothingPending, ContentPasses, Passes, next_count};
ghost use Rattle.wb_header.specs.Standing.{entries_of};
ghost use Rattle.wb_back.specs.Plans.{IsArranged, AreInside};

use crate::Plan;
use wb_device::{Device, DeviceFault};
use wb_runs::write_block;

/// Writes the dirty sectors of the blocks of a plan, block by block. It ends at the first call that fails.
fn write_blocks<B: Device>(backing: &mut B, plan: &Plan) -> Result<(), DeviceFault>
    requires { AreInside (B.state backing.old).sectors plan.now.blocks }
    ensures ok { OnOk result (ContentPasses (λ x y. y ≡ after x (entries_of plan.now.blocks)) (B.state backing.old) (B.state backing.new)) }
    ensures partly { ContentPasses (PutsPartly (entries_of plan.now.blocks)) (B.state backing.old) (B.state backing.new) }
    ensures crash { Passes (PutsPartly (entries_of plan.now.blocks)) (B.state backing.old) (B.state backing.new) }
    ensures reads { (B.state backing.new).reads ≡ (B.state backing.old).reads }
    ensures syncs { (B.state backing.new).syncs ≡ (B.state backing.old).syncs }
    ensures same { IsSameDevice (B.state backing.old) (B.state backing.new) }
    ensures cause { HasCause (B.state backing.old) (B.state backing.new) result }
{
    for one in &plan.planned {
        write_block(backing, one.block, one.bits, &plan.payloads[one.at])?;
    }
    Ok(())
}

/// Writes an arranged plan to the backing device: one write per run of dirty sectors of a block, by rising sector, and
/// then one sync. It ends at the first call that fails. After an `Err`, and in a crash, each sector is as it was or as
/// the plan has it.
#[tactic(auto, using(wb_geometry::proofs::Moments::content_kept_after))]
pub fn apply<B: Device>(backing: &mut B, plan: &Plan) -> Result<(), DeviceFault>
    requires arranged { IsArranged plan.now.blocks }
    requires inside { AreInside (B.state backing.old).sectors plan.now.blocks }
    ensures ok { OnOk result (ContentPasses (λ x y. y ≡ after x (entries_of plan.now.blocks)) (B.state backing.old) (B.state backing.new)) }
    ensures err { OnErr result (ContentPasses (PutsPartly (entries_of plan.now.blocks)) (B.state backing.old) (B.state backing.new)) }
    ensures crash { Passes (PutsPartly (entries_of plan.now.blocks)) (B.state backing.old) (B.state backing.new) }
    ensures durable { OnOk result (NothingPending (B.state backing.new)) }
    ensures reads { (B.state backing.new).reads ≡ (B.state backing.old).reads }
    ensures syncs { OnOk result ((B.state backing.new).syncs ≡ next_count (B.state backing.old).syncs) }
    ensures not_synced { OnErr result (((B.state backing.old).syncs ≤ (B.state backing.new).syncs)
        × ((B.state backing.new).syncs ≤ next_count (B.state backing.old).syncs)) }
    ensures same { IsSameDevice (B.state backing.old) (B.state backing.new) }
    ensures cause { HasCause (B.state backing.old) (B.state backing.new) result }
{
    write_blocks(backing, plan)?;
    backing.sync()
}
