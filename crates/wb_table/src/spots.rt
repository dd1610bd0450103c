//! The spots of the eight sectors of a block.
ghost use Rattle.std.specs.Prelude.{◌≡◌, ◌≢◌, ◌<◌, ℕ, slice_index_or, true};
ghost use Rattle.wb_table.specs.Lookup.{nowhere, noted, kept_after};
ghost use Rattle.wb_table.specs.Tables.{spot_of, no_spots, IsOldest};

use wb_geometry::Spot;

/// The sectors of a block.
const SECTORS: usize = 8;

/// The backing device.
const NOWHERE: Spot = Spot { id: 0, index: 0 };

/// The spots of the eight sectors of a block, in 72 bytes.
#[derive(Clone, Copy)]
pub struct Spots {
    /// The segment of each sector, or 0 for the backing device.
    ids: [u64; SECTORS],
    /// The block of that segment.
    indexes: [u8; SECTORS],
}

impl Spots {
    /// All sectors are on the backing device.
    pub(crate) fn nowhere() -> Spots
        ensures { result ≡ no_spots }
    {
        Spots {
            ids: [0; SECTORS],
            indexes: [0; SECTORS],
        }
    }

    /// The spot of a sector.
    fn get(&self, i: usize) -> Spot
        requires { i < 8 }
        ensures { result ≡ spot_of self.now i }
    {
        Spot {
            id: self.ids[i],
            index: self.indexes[i],
        }
    }

    /// The sector has this spot from now on.
    fn set(&mut self, i: usize, spot: Spot)
        requires { i < 8 }
        ensures here { spot_of self.new i ≡ spot }
        ensures others { (k : ℕ) → k ≢ i → spot_of self.new k ≡ spot_of self.old k }
    {
        self.ids[i] = spot.id;
        self.indexes[i] = spot.index;
    }

    /// The spots in the order of the sectors.
    pub(crate) fn all(&self) -> [Spot; SECTORS]
        ensures { (i : ℕ) → i < 8 → slice_index_or result i nowhere ≡ spot_of self.now i }
    {
        let mut all = [NOWHERE; SECTORS];
        for i in 0..SECTORS {
            all[i] = self.get(i);
        }
        all
    }

    /// The spots after the sectors whose bits are set have this one.
    pub(crate) fn noted(&self, bits: u8, spot: Spot) -> Spots
        ensures { (i : ℕ) → i < 8 → spot_of result i ≡ noted (spot_of self.now i) true bits i spot }
    {
        let mut spots = *self;
        for i in 0..SECTORS {
            if bits >> i & 1 == 1 {
                spots.set(i, spot);
            }
        }
        spots
    }

    /// The spots after all segments up to this one are forgotten.
    pub(crate) fn kept_after(&self, id: u64) -> Spots
        ensures { (i : ℕ) → i < 8 → spot_of result i ≡ kept_after id (spot_of self.now i) }
    {
        let mut spots = *self;
        for i in 0..SECTORS {
            if self.get(i).id <= id {
                spots.set(i, NOWHERE);
            }
        }
        spots
    }

    /// The least segment in which one of the sectors has its spot.
    pub(crate) fn oldest(&self) -> Option<u64>
        ensures { IsOldest self.now.ids 8 result }
    {
        let mut oldest: Option<u64> = None;
        for id in self.ids {
            if id != 0 && oldest.is_none_or(|least| id < least) {
                oldest = Some(id);
            }
        }
        oldest
    }
}
