use crate::{
    CallCounts, Device, DeviceCall, FaultPlan, FileDevice, ListingDevice, MemoryDevice,
    PlannedFault, Sink, Source, StdinSource, StdoutSink,
};
use std::alloc::{AllocError, Global};
use std::io::{ErrorKind, Read, Write};
use std::process::Abort;
use std::test::Fail;
use std::{fs, io};

const FOLDER: &str = "file_device_test";

const IMAGE: &str = "file_device_test/image";

/// The sector is filled with this byte.
fn is_filled(rt: &impl Abort, device: &mut FileDevice, at: u64, byte: u8) -> Result<(), Fail> {
    assert!(rt; at < device.sectors());
    let mut sector = [0; 512];
    device.read(at, &mut sector)?;
    assert!(rt; sector == [byte; 512]);
    Ok(())
}

/// A device of two sectors keeps what is written to the second.
fn keeps_a_sector(rt: &impl Abort, device: &mut FileDevice) -> Result<(), Fail> {
    assert!(rt; device.sectors() == 2);
    device.write(1, &[9; 512])?;
    device.sync()?;
    is_filled(rt, device, 0, 7)?;
    is_filled(rt, device, 1, 9)
}

fn fails_to_read(rt: &impl Abort, device: &mut FileDevice, at: u64) {
    assert!(rt; at < device.sectors());
    assert!(rt; device.read(at, &mut [0; 512]).is_err());
}

#[test]
fn a_file_keeps_what_was_written(rt: HostRuntime) -> Result<(), Fail> {
    let _ = fs::remove_dir_all(&rt, FOLDER);
    fs::create_dir(&rt, FOLDER)?;
    assert!(rt; FileDevice::open(&rt, IMAGE).sectors() == 0);
    fs::write(&rt, IMAGE, [7; 1100].as_slice())?;
    let mut device = FileDevice::open(&rt, IMAGE);
    keeps_a_sector(&rt, &mut device)?;

    // The file was cut short since.
    fs::write(&rt, IMAGE, [7; 600].as_slice())?;
    fails_to_read(&rt, &mut device, 1);
    fs::remove_dir_all(&rt, FOLDER)?;
    Ok(())
}

// Is interrupted, gives one byte, and then fails.
#[derive(Drop)]
struct Dripping {
    calls: u64,
}

impl Read for Dripping {
    fn read(&mut self, buf: &mut [u8]) -> io::Result<usize> {
        let call = self.calls;
        self.calls = call.saturating_add(1);
        match (call, buf.first_mut()) {
            (0, _) => Err(io::Error::from(ErrorKind::Interrupted)),
            (1, Some(place)) => {
                *place = b'a';
                Ok(1)
            }
            _ => Err(io::Error::from(ErrorKind::BrokenPipe)),
        }
    }
}

#[test]
fn an_interrupted_read_is_tried_again(rt: HostRuntime) -> Result<(), Fail> {
    let mut source = StdinSource::new(Dripping { calls: 0 });
    let mut into = [0; 4];
    assert!(rt; source.read(&mut into)? == 1);
    assert!(rt; into[0] == b'a');
    assert!(rt; source.read(&mut into).is_err());
    Ok(())
}

// Takes one byte a call, is interrupted once, and fails when it is full.
#[derive(Drop)]
struct Narrow {
    took: Vec<u8>,
    was_interrupted: bool,
}

impl Write for Narrow {
    fn write(&mut self, buf: &[u8]) -> io::Result<usize> {
        if !self.was_interrupted {
            self.was_interrupted = true;
            return Err(io::Error::from(ErrorKind::Interrupted));
        }
        match buf.first() {
            Some(byte) if self.took.len() < 4 => {
                self.took.push(*byte)?;
                Ok(1)
            }
            _ => Err(io::Error::from(ErrorKind::BrokenPipe)),
        }
    }

    fn flush(&mut self) -> io::Result<()> {
        Ok(())
    }
}

/// Two writes of three bytes, of which the second fails.
fn takes_a_write(rt: &impl Abort, narrow: &mut Narrow) -> Result<(), Fail> {
    let mut sink = StdoutSink::new(narrow);
    sink.write(b"abc")?;
    assert!(rt; sink.write(b"def").is_err());
    Ok(())
}

#[test]
fn a_short_write_is_carried_on(rt: HostRuntime) -> Result<(), Fail> {
    let mut narrow = Narrow {
        took: Vec::new(rt.alloc()),
        was_interrupted: false,
    };
    takes_a_write(&rt, &mut narrow)?;
    assert!(rt; narrow.took.as_slice() == b"abcd".as_slice());
    Ok(())
}

/// A device of two sectors of zeros, of which four calls are listed. Its second call fails, and stores one sector where it is
/// a write; so does each from the sixth on, and stores nothing.
fn failing_device(alloc: Global) -> Result<ListingDevice<MemoryDevice>, AllocError> {
    let faults = vec![in alloc;
        PlannedFault {
            call: 1,
            sectors: 1
        },
    ]?;
    let plan = FaultPlan {
        faults,
        stop: Some(5),
    };
    let device = MemoryDevice::of(alloc, [0; 1100].to_vec(alloc)?, plan)?;
    ListingDevice::over(alloc, device, 4)
}

/// The choice of a crash, and the first and the last byte that it leaves.
const CRASHES: [(&[u8], u8, u8); 4] = [
    (b"", 0, 0),
    (b"\x01", 7, 5),
    (b"\x02\x00", 9, 0),
    (b"\x03\x03", 0, 5),
];

/// The ends of what a crash by this choice leaves.
fn ends_after(
    alloc: Global,
    device: &MemoryDevice,
    choice: &[u8],
) -> Result<(Option<u8>, Option<u8>), Fail> {
    let crashed = device.crashed(alloc, choice)?;
    let bytes = crashed.bytes();
    Ok((bytes.first().copied(), bytes.last().copied()))
}

/// What crashes leave behind three writes.
fn leaves_each(rt: &impl Abort, alloc: Global, device: &MemoryDevice) -> Result<(), Fail> {
    for (choice, first, last) in &CRASHES {
        let ends = ends_after(alloc, device, choice)?;
        assert!(rt; ends == (Some(*first), Some(*last)));
    }
    Ok(())
}

/// The first five calls: three writes, of which the second fails, a read and a sync.
fn fails_at_the_second_call(
    rt: &impl Abort,
    alloc: Global,
    device: &mut ListingDevice<MemoryDevice>,
) -> Result<(), Fail> {
    assert!(rt; device.sectors() == 2);
    device.write(0, &[7; 512])?;
    assert!(rt; device.write(0, &[9; 1024]).is_err());
    device.write(1, &[5; 512])?;
    device.read(1, &mut [0; 512])?;
    leaves_each(rt, alloc, device.inner())?;
    device.sync()?;
    Ok(())
}

/// Two calls more, which fail.
fn fails_from_the_stop(rt: &impl Abort, device: &mut ListingDevice<MemoryDevice>) {
    assert!(rt; device.sectors() == 2);
    assert!(rt; device.write(0, &[1; 512]).is_err());
    assert!(rt; device.sync().is_err());
}

/// The calls that are listed: the others come behind the room.
const LISTED: [DeviceCall; 4] = [
    DeviceCall::Write { at: 0, sectors: 1 },
    DeviceCall::Write { at: 0, sectors: 2 },
    DeviceCall::Write { at: 1, sectors: 1 },
    DeviceCall::Read { at: 1, sectors: 1 },
];

const COUNTED: CallCounts = CallCounts {
    reads: 1,
    writes: 4,
    syncs: 2,
};

/// Whether all calls were passed on, counted and, as far as there is room, listed.
fn has_listed(device: &ListingDevice<MemoryDevice>) -> bool {
    device.calls() == LISTED.as_slice()
        && device.counts() == COUNTED
        && device.inner().calls() == 7
        && device.inner().starved() == 0
}

#[test]
fn a_device_in_memory_fails_as_planned_and_crashes(rt: HostRuntime) -> Result<(), Fail> {
    let mut device = failing_device(rt.alloc())?;
    fails_at_the_second_call(&rt, rt.alloc(), &mut device)?;
    fails_from_the_stop(&rt, &mut device);
    let (listed, ends) = (
        has_listed(&device),
        ends_after(rt.alloc(), device.inner(), b"\x01")?,
    );
    assert!(rt; listed && ends == (Some(9), Some(5)));
    Ok(())
}
