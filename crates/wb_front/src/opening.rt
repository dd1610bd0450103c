//! Opening a cache for many clients.
ghost use Rattle.std.specs.Prelude.{◌≡◌, ◌≤◌, IfOk, IfErr};
ghost use Rattle.wb_geometry.specs.Device.{CountsFaultsWhere};
ghost use Rattle.wb_engine.specs.Opening.{SaysLog};
ghost use Rattle.wb_engine.specs.declared.opening.OpenCause.TheVariants.{BackingFault};
ghost use Rattle.wb_front.specs.Beginning.{engine_of, IsReadied, RefusesReady};

use std::alloc::Global;
use wb_device::Device;
use wb_engine::{Engine, OpenCause, OpenStop};
use wb_geometry::Geometry;
use wb_intake::{Drain, Intake, Pass};

/// An opened engine, with an intake for it and the intake's drain.
#[derive(Drop)]
pub struct Ready<L: Device, B: Device> {
    pub(crate) engine: Engine<L, B>,
    pub(crate) intake: Intake,
    pub(crate) drain: Drain,
}

impl<L: Device, B: Device> Ready<L, B> {
    /// Opens the cache, as `Engine::open` does, with an intake for so many clients, and a pass for each. Where there was no
    /// memory for the intake the devices are recovered, and are given back.
    pub fn open(
        alloc: Global,
        log: L,
        backing: B,
        clients: u32,
    ) -> Result<(Ready<L, B>, Vec<Pass>), OpenStop<L, B>>
        requires some { 1 ≤ clients }
        requires few { clients ≤ 32 }
        ensures opened { IfOk result (λ r. IsReadied L.state B.state (L.state log) (B.state backing) clients r.0 r.1.items) }
        ensures refused { IfErr result (λ stop. RefusesReady stop.cause (L.state log) (L.state stop.log) (B.state backing) (B.state stop.backing)) }
        ensures log_cause { IfErr result (λ stop. CountsFaultsWhere (SaysLog stop.cause) (L.state log).faults (L.state stop.log).faults) }
        ensures backing_cause { IfErr result (λ stop. CountsFaultsWhere (stop.cause ≡ BackingFault) (B.state backing).faults (B.state stop.backing).faults) }
    {
        let engine = Engine::open(alloc, log, backing)?;
        match Intake::new(alloc, engine.geometry(), engine.first(), clients) {
            Ok((intake, passes, drain)) => Ok((
                Ready {
                    engine,
                    intake,
                    drain,
                },
                passes,
            )),
            Err(_) => {
                let (log, backing) = engine.into_devices();
                Err(OpenStop {
                    log,
                    backing,
                    cause: OpenCause::Memory,
                })
            }
        }
    }

    /// The numbers of the cache.
    pub fn geometry(&self) -> &Geometry
        ensures { result.now ≡ (engine_of self.now).geometry }
    {
        self.engine.geometry()
    }

    /// Gives the devices back.
    pub fn into_devices(self) -> (L, B)
        ensures log { result.0 ≡ (engine_of self).log }
        ensures backing { result.1 ≡ (engine_of self).backing }
    {
        let Ready { engine, .. } = self;
        engine.into_devices()
    }
}
