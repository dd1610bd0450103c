//! Of a content there is at most one answer: a superblock or one refusal.
ghost use Rattle.std.specs.Prelude.{◌≡◌, ◌≢◌, ◌≤◌, ℕ};
ghost use Rattle.wb_geometry.specs.Image.{Image, IsImage};
ghost use Rattle.wb_geometry.specs.declared.geometry.Geometry.{Geometry};
ghost use Rattle.wb_super.specs.Superblock.{SuperText, record_of};
ghost use Rattle.wb_super.specs.Found.{IsSuper, Refuses, most_record, telling};
ghost use Rattle.wb_super.specs.declared.reading.Super.{Super};
ghost use Rattle.wb_super.specs.declared.reading.SuperRefused.{SuperRefused};
ghost use Rattle.wb_super.specs.declared.reading.SuperRefused.TheVariants.{Fault};

/// A content has at most one superblock or one cause to be refused, and never both; a fault may come beside any. A
/// formatted log whose record isn't above `2 ^ 62` is refused for a fault alone.
pub fn decides()
    ensures one_super { (sectors : ℕ) (x : Image) (a b : Super)
        → IsSuper (telling sectors x) a → IsSuper (telling sectors x) b → a ≡ b }
    ensures one_refusal { (sectors : ℕ) (x : Image) (r t : SuperRefused)
        → Refuses (telling sectors x) r → Refuses (telling sectors x) t → r ≢ Fault → t ≢ Fault → r ≡ t }
    ensures never_both { (sectors : ℕ) (x : Image) (found : Super) (r : SuperRefused)
        → IsSuper (telling sectors x) found → Refuses (telling sectors x) r → r ≡ Fault }
    ensures formatted { (sectors : ℕ) (x : Image) (g : Geometry) (r : SuperRefused)
        → IsImage sectors x → SuperText x g 1 → record_of x ≤ most_record → Refuses (telling sectors x) r → r ≡ Fault }
{}
