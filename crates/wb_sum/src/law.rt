//! What the definition of the checksum means.
ghost use Rattle.std.specs.Prelude.{◌≡◌, ◌≤◌, Bool, List, length};
ghost use Rattle.wb_sum.specs.Crc32c.{IsRemainder, remainder};

/// The definition divides: what it leaves is the remainder, and there is no other.
pub fn divides()
    ensures remainder { (p : List Bool) → 32 ≤ length p → IsRemainder p (remainder p) }
    ensures only { (p r s : List Bool) → IsRemainder p r → IsRemainder p s → r ≡ s }
{}
