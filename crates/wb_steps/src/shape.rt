//! The numbers of an intake.

use wb_geometry::Geometry;

/// The numbers of one intake.
#[derive(Clone, Copy, Debug, PartialEq, Eq)]
pub struct Shape {
    /// The places of a segment.
    pub places: u64,
    /// The segments that the cells have room for.
    pub ram: u64,
    /// The blocks of the backing device.
    pub blocks: u64,
    /// The id below that of the first segment.
    pub first: u64,
}

impl Shape {
    ghost use Rattle.std.specs.Prelude.{◌≡◌, ◌≤◌, ◌^◌};
    ghost use Rattle.wb_steps.specs.Rule.{shape_of, IsShape};

    /// The numbers of an intake of this geometry, whose first segment has the id `first + 1`.
    pub fn of(geometry: &Geometry, first: u64) -> Shape
        requires { first ≤ 2 ^ 48 }
        ensures shape { result ≡ shape_of geometry.now first }
        ensures fits { IsShape result }
    {
        Shape {
            places: geometry.places(),
            ram: u64::from(geometry.ram),
            blocks: geometry.backing_sectors / 8,
            first,
        }
    }
}
