//! Reading the whole script.
ghost use Rattle.std.specs.Prelude.{◌≡◌, ◌+◌, ◌<◌, ◌≤◌, length, IfOk, OnOk, IsErrOf};
ghost use Rattle.wb_geometry.specs.Device.{Rose};
ghost use Rattle.wb_tool.specs.Reads.{IsPiece, IsRead};

use std::alloc::{AllocError, Global};
use wb_device::{Source, SourceFault};

/// The most bytes of a script.
const MOST_BYTES: usize = 67_108_864;

/// The bytes that are asked of the source at a time.
const PIECE_BYTES: usize = 65_536;

/// Why the script wasn't read.
#[derive(Clone, Copy, Debug)]
pub enum ReadStop {
    /// The source failed.
    Fault,
    /// There was no memory for the script.
    Memory,
}

impl From<SourceFault> for ReadStop {
    ghost use Rattle.std.specs.Prelude.{◌≡◌};
    ghost use Rattle.wb_tool.specs.declared.reading.ReadStop.TheVariants.{Fault};

    ghost from_gives = { λ _ stop. stop ≡ Fault };

    fn from(_: SourceFault) -> ReadStop {
        ReadStop::Fault
    }
}

impl From<AllocError> for ReadStop {
    ghost use Rattle.std.specs.Prelude.{◌≡◌};
    ghost use Rattle.wb_tool.specs.declared.reading.ReadStop.TheVariants.{Memory};

    ghost from_gives = { λ _ stop. stop ≡ Memory };

    fn from(_: AllocError) -> ReadStop {
        ReadStop::Memory
    }
}

/// All bytes of the source, in pieces; the reading ends after one byte more than a script may have.
pub fn read_all<S: Source>(alloc: Global, source: &mut S) -> Result<Vec<u8>, ReadStop>
    ensures read { IfOk result (λ bytes. IsRead (S.left source.old) (S.left source.new) bytes.items) }
    ensures kept { OnOk result (S.faults source.new ≡ S.faults source.old) }
    ensures fault { IsErrOf result ReadStop.Fault → Rose (S.faults source.old) (S.faults source.new) }
{
    let mut piece = vec![in alloc; 0; PIECE_BYTES]?;
    let mut bytes = Vec::new(alloc);
    while bytes.len() <= MOST_BYTES {
        if read_piece(source, &mut piece, &mut bytes)? == 0 {
            return Ok(bytes);
        }
    }
    Ok(bytes)
}

/// Adds the next bytes of the source behind those that were read, and answers how many. None is the end.
fn read_piece<S: Source>(
    source: &mut S,
    piece: &mut [u8],
    bytes: &mut Vec<u8>,
) -> Result<usize, ReadStop>
    requires some { 0 < length piece.old }
    requires room { length bytes.old.items ≤ MOST_BYTES }
    ensures piece { IfOk result (λ count. IsPiece (S.left source.old) (S.left source.new) bytes.old.items bytes.new.items count) }
    ensures kept { OnOk result (S.faults source.new ≡ S.faults source.old) }
    ensures fault { IsErrOf result ReadStop.Fault → Rose (S.faults source.old) (S.faults source.new) }
{
    let room = piece.len().min(MOST_BYTES + 1 - bytes.len());
    let count = source.read(&mut piece[..room])?;
    bytes.extend_from_slice(&piece[..count])?;
    Ok(count)
}
