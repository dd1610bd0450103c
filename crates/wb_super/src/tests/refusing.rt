//! What reading a superblock answers: each cause to refuse it, alone and beside the next one, so that the order is seen.
use super::{NOTHING, Planned, device_of, plan_of};
use crate::{Super, SuperRefused, read_super};
use std::alloc::{AllocError, Global};
use std::process::Abort;
use std::test::Fail;
use wb_geometry::Geometry;
use wb_sum::Sum;

// What is wrong with a log, in the order in which it is asked.
#[derive(Clone, Copy, Debug, PartialEq, Eq)]
enum Flaw {
    NoFront,
    FirstRead,
    BadMagic,
    BadVersion,
    BadSum,
    BadGeometry,
    FewSectors,
    SecondRead,
    BadRecord,
}

// The flaws of a log, and what is answered.
type Row = (Flaw, Option<Flaw>, SuperRefused);

const ROWS: [Row; 17] = [
    (Flaw::NoFront, None, NO_FRONT),
    (Flaw::NoFront, Some(Flaw::FirstRead), NO_FRONT),
    (Flaw::FirstRead, None, SuperRefused::Fault),
    (Flaw::FirstRead, Some(Flaw::BadMagic), SuperRefused::Fault),
    (Flaw::BadMagic, None, SuperRefused::Magic),
    (Flaw::BadMagic, Some(Flaw::BadVersion), SuperRefused::Magic),
    (Flaw::BadVersion, None, SuperRefused::Version(2)),
    (
        Flaw::BadVersion,
        Some(Flaw::BadSum),
        SuperRefused::Version(2),
    ),
    (
        Flaw::BadSum,
        None,
        SuperRefused::Sum {
            stored: 0x11B1_0DCC,
            computed: 0x11B1_0DCB,
        },
    ),
    (
        Flaw::BadSum,
        Some(Flaw::BadGeometry),
        SuperRefused::Sum {
            stored: 0x957A_CBF9,
            computed: 0x957A_CBF8,
        },
    ),
    (Flaw::BadGeometry, None, SuperRefused::Geometry),
    (
        Flaw::BadGeometry,
        Some(Flaw::FewSectors),
        SuperRefused::Geometry,
    ),
    (Flaw::FewSectors, None, FEW_SECTORS),
    (Flaw::FewSectors, Some(Flaw::SecondRead), FEW_SECTORS),
    (Flaw::SecondRead, None, SuperRefused::Fault),
    (Flaw::SecondRead, Some(Flaw::BadRecord), SuperRefused::Fault),
    (Flaw::BadRecord, None, SuperRefused::Record((1 << 62) + 1)),
];

const NO_FRONT: SuperRefused = SuperRefused::Small {
    needs: 2048,
    has: 2047,
};

const FEW_SECTORS: SuperRefused = SuperRefused::Small {
    needs: 6848,
    has: 2080,
};

// A log with these flaws.
#[derive(Clone, Copy)]
struct Flawed {
    first: Option<Flaw>,
    second: Option<Flaw>,
}

impl Flawed {
    fn has(self, flaw: Flaw) -> bool {
        self.first == Some(flaw) || self.second == Some(flaw)
    }

    // One value where the log has the flaw, and else the other.
    fn pick<T: Copy>(self, flaw: Flaw, bad: T, good: T) -> T {
        if self.has(flaw) { bad } else { good }
    }

    // The fields of a log of two segments in memory and eight backing sectors.
    fn fields(self) -> [u8; 32] {
        let version: u32 = self.pick(Flaw::BadVersion, 2, 1);
        let order: u32 = self.pick(Flaw::BadGeometry, 3, 4);
        let slots: u32 = self.pick(Flaw::FewSectors, 300, 2);
        let mut fields = [0; 32];
        fields[..7].copy_from_slice(b"WBLOG\0\0");
        fields[7] = self.pick(Flaw::BadMagic, 1, 0);
        fields[8..12].copy_from_slice(&version.to_le_bytes());
        fields[12..16].copy_from_slice(&order.to_le_bytes());
        fields[16..20].copy_from_slice(&slots.to_le_bytes());
        fields[20] = 2;
        fields[24] = 8;
        fields
    }

    // The checksum behind the fields.
    fn stored(self, fields: &[u8]) -> [u8; 4] {
        let mut sum = Sum::new();
        sum.update(fields);
        let stored = sum.finish().wrapping_add(self.pick(Flaw::BadSum, 1, 0));
        stored.to_le_bytes()
    }

    // The record.
    fn recorded(self) -> [u8; 8] {
        let recorded: u64 = self.pick(Flaw::BadRecord, (1 << 62) + 1, 1 << 62);
        recorded.to_le_bytes()
    }

    // The bytes of the log.
    fn image(self, alloc: Global) -> Result<Vec<u8>, AllocError> {
        let fields = self.fields();
        let size = self.pick(Flaw::NoFront, 2047 * 512, 2080 * 512);
        let mut bytes = vec![in alloc; 0; size]?;
        put(bytes.as_mut_slice(), 0, &fields);
        put(bytes.as_mut_slice(), 32, &self.stored(&fields));
        put(bytes.as_mut_slice(), 2047 * 512, &self.recorded());
        Ok(bytes)
    }

    // The call that fails.
    fn planned(self) -> Planned {
        if self.has(Flaw::FirstRead) {
            return plan_of(Some((0, 0)), None);
        }
        if self.has(Flaw::SecondRead) {
            return plan_of(Some((1, 0)), None);
        }
        NOTHING
    }

    // What is found of the log.
    fn found(self, alloc: Global) -> Result<Result<Super, SuperRefused>, AllocError> {
        let bytes = self.image(alloc)?;
        let mut log = device_of(alloc, bytes.as_slice(), &self.planned())?;
        Ok(read_super(&mut log))
    }
}

// Puts these bytes over those from `start` on, as far as there are any.
fn put(bytes: &mut [u8], start: usize, text: &[u8]) {
    for (place, byte) in bytes.iter_mut().skip(start).zip(text) {
        *place = *byte;
    }
}

// A log is refused for the cause of a row.
fn is_refused(rt: &impl Abort, found: &Result<Super, SuperRefused>, row: &Row) {
    let (first, second, refused) = *row;
    assert!(rt;
        *found == Err(refused),
        "with {first:?} {second:?}: {found:?}"
    );
}

#[test]
fn the_first_cause_is_told(rt: HostRuntime) -> Result<(), AllocError> {
    for row in &ROWS {
        let flawed = Flawed {
            first: Some(row.0),
            second: row.1,
        };
        is_refused(&rt, &flawed.found(rt.alloc())?, row);
    }
    Ok(())
}

#[test]
fn a_good_log_tells_its_geometry_and_record(rt: HostRuntime) -> Result<(), Fail> {
    let good = Flawed {
        first: None,
        second: None,
    };
    let wanted = Super {
        version: 1,
        geometry: Geometry::new(4, 2, 2, 8)?,
        recorded: 1 << 62,
    };
    assert!(rt; good.found(rt.alloc())? == Ok(wanted));
    Ok(())
}
