//! Recovery makes an image of whatever it finds.
ghost use Rattle.std.specs.Prelude.{◌≤◌, ℕ, List};
ghost use Rattle.wb_geometry.specs.Image.{Image, IsImage};
ghost use Rattle.wb_geometry.specs.Layout.{log_sectors};
ghost use Rattle.wb_geometry.specs.declared.geometry.Geometry.{Geometry};
ghost use Rattle.wb_header.specs.Text.{TextBlock};
ghost use Rattle.wb_crash.specs.Chain.{IsChain, IsRecovered};

/// Each log image with the sectors of a geometry has a chain, so there is an image that recovery makes of it and any
/// backing image. That it is the only one is the lemma `one_recovered` of wb_crash.
pub fn always_makes()
    ensures chain { (g : Geometry) (sectors : ℕ) (x : Image) → IsImage sectors x → log_sectors g ≤ sectors
        → (chain : List (List TextBlock)) × IsChain g x chain }
    ensures image { (g : Geometry) (sectors : ℕ) (x y : Image) → IsImage sectors x → log_sectors g ≤ sectors
        → (z : Image) × IsRecovered g x y z }
{}
