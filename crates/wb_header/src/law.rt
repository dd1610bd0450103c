//! Bytes spell at most one segment, and a segment has one spelling.
ghost use Rattle.std.specs.Prelude.{◌≡◌, ℕ, List, length, take};
ghost use Rattle.wb_header.specs.Text.{TextBlock, IsText};
ghost use Rattle.wb_header.specs.Refused.{Refuses, front_of};
ghost use Rattle.wb_header.specs.declared.checking.Refused.{Refused};

/// Bytes are the text of at most one id and one list of blocks, and begin with at most one text. Bytes that begin with a
/// text have no cause to be refused. An id and a list of blocks have at most one text.
pub fn spells()
    ensures one_segment { (room limit other_room other_limit id other : ℕ) (bytes : List ℕ) (blocks others : List TextBlock)
        → IsText room limit bytes id blocks → IsText other_room other_limit bytes other others → (id ≡ other) × (blocks ≡ others) }
    ensures one_front { (room limit other_room other_limit id other : ℕ) (bytes first second : List ℕ) (blocks others : List TextBlock)
        → IsText room limit first id blocks → IsText other_room other_limit second other others
        → first ≡ take (length first) bytes → second ≡ take (length second) bytes → first ≡ second }
    ensures accepted { (room limit id : ℕ) (bytes : List ℕ) (blocks : List TextBlock) (refused : Refused)
        → IsText room limit (front_of bytes) id blocks → Refuses room limit id bytes refused → ⊥ }
    ensures one_spelling { (room limit other_room other_limit id : ℕ) (bytes others : List ℕ) (blocks : List TextBlock)
        → IsText room limit bytes id blocks → IsText other_room other_limit others id blocks → bytes ≡ others }
{}
