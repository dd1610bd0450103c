//! The places that a write took.
ghost use Rattle.std.specs.Prelude.{◌≡◌};

use std::marker::Model;
use wb_geometry::Places;

/// Where the places stand.
#[derive(Debug, Drop)]
enum Held<'a> {
    Own { places: Places },
    Lent { places: &'a [u64] },
}

/// The places that the parts of a write took in the history, in order: those of a write that was just answered, or those
/// that a transcript keeps.
#[derive(Debug, Drop)]
pub struct Taken<'a> {
    held: Held<'a>,
}

impl<'a> Model for Taken<'a> {
    ghost use Rattle.std.specs.Prelude.{ℕ, List};

    ghost Value = { List ℕ };

    ghost use Rattle.wb_script.specs.Held.{held_places};

    ghost view = { λ t. held_places t.held };
}

impl<'a> Taken<'a> {
    /// These places.
    pub fn of(places: Places) -> Taken<'a>
        ensures { result ≡ places }
    {
        Taken {
            held: Held::Own { places },
        }
    }

    /// These places, which a transcript keeps.
    pub(super) fn lent(places: &'a [u64]) -> Taken<'a>
        ensures { result ≡ places.now }
    {
        Taken {
            held: Held::Lent { places },
        }
    }

    /// The places in order.
    pub fn as_slice(&self) -> &[u64]
        ensures { result.now ≡ self.now }
    {
        match &self.held {
            Held::Own { places } => places.as_slice(),
            Held::Lent { places } => places,
        }
    }
}
