//! The numbers of a cache.
ghost use Rattle.std.specs.Prelude.{◌≡◌, ◌≤◌, ◌%◌, ◌^◌, IfOk, IfErr};
ghost use Rattle.wb_geometry.specs.Geometry.{IsOrder, IsSlots, IsRam, IsBacking};

/// The numbers of a cache. Only numbers in their ranges make one.
#[derive(Clone, Copy, Debug, PartialEq, Eq)]
pub struct Geometry {
    /// A slot of the log has `2 ^ order` sectors; 4 to 10.
    pub order: u32,
    /// The slots of the log; 2 to 16384.
    pub slots: u32,
    /// The segments that are kept in memory; 2 to 64.
    pub ram: u32,
    /// The sectors of the backing device that are served; a multiple of 8, from 8 to `2 ^ 40`.
    pub backing_sectors: u64,
    pub ghost order_fits: { IsOrder order },
    pub ghost slots_fit: { IsSlots slots },
    pub ghost ram_fits: { IsRam ram },
    pub ghost backing_fits: { IsBacking backing_sectors },
}

/// The first number that is out of its range, with that number.
#[derive(Clone, Copy, Debug, PartialEq, Eq)]
pub enum GeometryRefused {
    /// The order isn't in 4 to 10.
    Order(u32),
    /// The number of slots isn't in 2 to 16384.
    Slots(u32),
    /// The number of segments in memory isn't in 2 to 64.
    Ram(u32),
    /// The number of backing sectors is 0, above `2 ^ 40`, or no multiple of 8.
    Backing(u64),
}

/// Where the slots begin, behind the superblock and the record.
const FIRST_SLOT: u64 = 2048;

impl Geometry {
    ghost use Rattle.std.specs.Prelude.{◌≡◌, ◌≤◌, ◌<◌, IfOk, IfErr};
    ghost use Rattle.wb_geometry.specs.Geometry.{Refuses};
    ghost use Rattle.wb_geometry.specs.Layout.{slot_sectors, log_sectors, slot_at, slot_start, places, segment_of};

    /// The geometry of these numbers, or the first of them, in this order, that is out of its range.
    pub fn new(
        order: u32,
        slots: u32,
        ram: u32,
        backing_sectors: u64,
    ) -> Result<Geometry, GeometryRefused>
        ensures order { IfOk result (λ g. g.order ≡ order) }
        ensures slots { IfOk result (λ g. g.slots ≡ slots) }
        ensures ram { IfOk result (λ g. g.ram ≡ ram) }
        ensures backing { IfOk result (λ g. g.backing_sectors ≡ backing_sectors) }
        ensures refused { IfErr result (Refuses order slots ram backing_sectors) }
    {
        if !(4..=10).contains(&order) {
            return Err(GeometryRefused::Order(order));
        }
        if !(2..=16384).contains(&slots) {
            return Err(GeometryRefused::Slots(slots));
        }
        if !(2..=64).contains(&ram) {
            return Err(GeometryRefused::Ram(ram));
        }
        if backing_sectors == 0 || backing_sectors > 1 << 40 || backing_sectors % 8 != 0 {
            return Err(GeometryRefused::Backing(backing_sectors));
        }
        Ok(Geometry {
            order,
            slots,
            ram,
            backing_sectors,
        })
    }

    /// The sectors of a slot of the log.
    pub fn slot_sectors(&self) -> u64
        ensures { result ≡ slot_sectors self.now }
    {
        1 << self.order
    }

    /// The sectors of the log, with all of its slots.
    pub fn log_sectors(&self) -> u64
        ensures { result ≡ log_sectors self.now }
    {
        FIRST_SLOT + self.slot_sectors() * u64::from(self.slots)
    }

    /// The places of a segment, which are the cache blocks that fit a slot: 1 to 127.
    pub fn places(&self) -> u64
        ensures places { result ≡ places self.now }
        ensures some { 1 ≤ result }
        ensures few { result ≤ 127 }
    {
        (1 << (self.order - 3)) - 1
    }

    /// The segment that a place of a session belongs to, where `first` was the record at the session's start. Both are at
    /// most `2 ^ 55`.
    pub fn segment_of(&self, place: u64, first: u64) -> u64
        requires place { place ≤ 2 ^ 55 }
        requires first { first ≤ 2 ^ 55 }
        ensures { result ≡ segment_of self.now place first }
    {
        first + 1 + place / self.places()
    }

    /// The sector where the slot of segment `id` begins. Segments are numbered from 1, and take the slots in turn.
    pub fn slot_start(&self, id: u64) -> u64
        requires { 1 ≤ id }
        ensures { result ≡ slot_start self.now id }
    {
        FIRST_SLOT + self.slot_sectors() * ((id - 1) % u64::from(self.slots))
    }

    /// The sector where this slot begins. The slots are numbered from 0.
    pub fn slot_at(&self, slot: u32) -> u64
        requires { slot < self.now.slots }
        ensures { result ≡ slot_at self.now slot }
    {
        FIRST_SLOT + self.slot_sectors() * u64::from(slot)
    }
}

#[cfg(test)]
mod tests {
    use super::*;

    #[test]
    fn the_first_number_out_of_range_is_named(rt: HostRuntime) {
        let rows = [
            ((4, 2, 2, 8), None),
            ((10, 16384, 64, 1 << 40), None),
            ((3, 1, 1, 0), Some(GeometryRefused::Order(3))),
            ((11, 4, 2, 8), Some(GeometryRefused::Order(11))),
            ((5, 1, 1, 0), Some(GeometryRefused::Slots(1))),
            ((5, 16385, 2, 8), Some(GeometryRefused::Slots(16385))),
            ((5, 4, 1, 0), Some(GeometryRefused::Ram(1))),
            ((5, 4, 65, 8), Some(GeometryRefused::Ram(65))),
            ((5, 4, 2, 0), Some(GeometryRefused::Backing(0))),
            ((5, 4, 2, 9), Some(GeometryRefused::Backing(9))),
            (
                (5, 4, 2, (1 << 40) + 8),
                Some(GeometryRefused::Backing((1 << 40) + 8)),
            ),
        ];
        for ((order, slots, ram, sectors), refused) in rows {
            let made = Geometry::new(order, slots, ram, sectors);
            assert_eq!(rt; made.err(), refused, "of {order} {slots} {ram} {sectors}");
        }
    }

    #[test]
    fn segments_take_the_slots_in_turn(rt: HostRuntime) -> Result<(), GeometryRefused> {
        let geometry = Geometry::new(5, 4, 2, 64)?;
        assert_eq!(rt; geometry.slot_sectors(), 32);
        assert_eq!(rt; geometry.log_sectors(), 2176);
        for (id, start) in [(1, 2048), (2, 2080), (4, 2144), (5, 2048), (u64::MAX, 2112)] {
            assert_eq!(rt; geometry.slot_start(id), start, "of segment {id}");
        }
        assert_eq!(rt; geometry.places(), 3);
        for (place, id) in [(0, 5), (2, 5), (3, 6), (1 << 55, 12009599006321327)] {
            assert_eq!(rt; geometry.segment_of(place, 4), id, "of place {place}");
        }
        Ok(())
    }
}
