//! Turns: what the cache does beside its requests.
ghost use Rattle.std.specs.Prelude.{◌≡◌, None};
ghost use Rattle.wb_engine.specs.Stepping.{IsStep, IsTurn};

use crate::engine::Engine;
use wb_device::Device;
use wb_geometry::Which;

/// What a turn did.
#[derive(Clone, Copy, Debug, PartialEq, Eq)]
pub enum Turn {
    /// It wrote the next sealed segment to the log.
    Logged,
    /// It synced the log.
    Synced,
    /// It wrote a batch of segments back to the backing device.
    Backed,
    /// It recorded what is written back.
    Recorded,
    /// There was nothing to do.
    Idle,
}

impl<L: Device, B: Device> Engine<L, B> {
    /// Makes the first of the four steps that can be made, in the order of the kinds of `Turn`, or is idle. The engine is
    /// up. After an `Err`, which comes only where that device failed, it is down.
    pub fn turn(&mut self) -> Result<Turn, Which>
        requires { self.old.down ≡ None }
        ensures step { IsStep L.state B.state self.old self.new }
        ensures does { IsTurn L.state B.state self.old self.new result }
    {
        if self.can_log() {
            self.log_next()?;
            return Ok(Turn::Logged);
        }
        if self.can_sync() {
            self.sync_log()?;
            return Ok(Turn::Synced);
        }
        if self.can_back() {
            self.back_batch()?;
            return Ok(Turn::Backed);
        }
        if self.can_record() {
            self.put_record()?;
            return Ok(Turn::Recorded);
        }
        Ok(Turn::Idle)
    }
}
