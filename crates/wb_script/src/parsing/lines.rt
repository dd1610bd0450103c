//! The lines of a script.
ghost use Rattle.std.specs.Prelude.{◌≡◌, ◌≢◌, ◌<◌, ◌-◌, ◌↔◌, [], IsTrue, length, slice_index, slice_index_or};
ghost use Rattle.wb_script.specs.Grammar.{lines};

/// The number of lines: each is ended by a newline, which the last may lack.
pub(super) fn line_count(bytes: &[u8]) -> usize
    ensures { result ≡ length (lines bytes.now) }
{
    let ended = bytes.iter().filter(|byte| **byte == b'\n').count();
    ended + usize::from(is_open(bytes))
}

/// Whether there is a last line that lacks its newline.
fn is_open(bytes: &[u8]) -> bool
    ensures { IsTrue result ↔ ((0 < length bytes.now) × (slice_index bytes.now (length bytes.now - 1) ≢ 10)) }
{
    bytes.last().is_some_and(|last| *last != b'\n')
}

/// The first line, or nothing where there is none.
pub(super) fn first_line(bytes: &[u8]) -> &[u8]
    ensures { result.now ≡ slice_index_or (lines bytes.now) 0 [] }
{
    bytes.split(|byte| *byte == b'\n').next().unwrap_or(bytes)
}
