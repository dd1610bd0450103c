//! The table of the intake, and what its steps tell.
use crate::sight::Sight;
use atomic_table::{Join, Play, Seat, Split, Table, TableRule};
use std::alloc::Global;
use std::marker::{Brand, PhantomData};
use wb_steps::{Item, Shape};

/// The rule of the table. Word 0 is the cursor, word 1 the limit, word 2 the stable number and word 3 the fault; then come
/// the words of the cells.
pub struct Rules;

impl TableRule<Option<Item>, Sight, Shape> for Rules {
    ghost use Rattle.wb_intake.specs.Sights.{Holds, founder};

    ghost holds = { Holds };

    ghost first = { founder };
}

/// A seat of the intake.
pub type Place = Seat<Option<Item>, Sight>;

/// The table of the intake.
pub type Cells = Table<Option<Item>, Sight, Shape, Rules, Global>;

/// The entry that a claim names. The claim picks it, for contracts alone.
pub trait Naming {
    ghost use Rattle.wb_geometry.specs.History.{HistoryEntry};

    ghost item: { HistoryEntry };
}

impl Naming for Brand {
    ghost use Rattle.wb_geometry.specs.History.{Void};

    ghost item = { Void 0 };
}

pub(crate) struct Sees;

impl Play<Option<Item>, Sight> for Sees {
    ghost use Rattle.wb_intake.specs.Plays.{sees};

    ghost then = { sees };
}

pub(crate) struct Claims<E> {
    entry: PhantomData<E>,
}

impl<E: Naming> Play<Option<Item>, Sight> for Claims<E> {
    ghost use Rattle.wb_intake.specs.Plays.{claims};

    ghost then = { claims E.item };
}

pub(crate) struct Bumps;

impl Play<Option<Item>, Sight> for Bumps {
    ghost use Rattle.wb_intake.specs.Plays.{bumps};

    ghost then = { bumps };
}

pub(crate) struct Enters;

impl Play<Option<Item>, Sight> for Enters {
    ghost use Rattle.wb_intake.specs.Plays.{enters};

    ghost then = { enters };
}

pub(crate) struct Fills;

impl Play<Option<Item>, Sight> for Fills {
    ghost use Rattle.wb_intake.specs.Plays.{fills};

    ghost then = { fills };
}

/// The numbers of an intake. The drain picks them where it takes an entry out, for contracts alone.
pub trait Shaped {
    ghost use Rattle.wb_steps.specs.declared.shape.Shape.{Shape};

    ghost shape: { Shape };
}

impl Shaped for Brand {
    ghost shape = { record { places = 1; ram = 1; blocks = 0; first = 0 } };
}

pub(crate) struct TakesOut<S> {
    shape: PhantomData<S>,
}

impl<S: Shaped> Play<Option<Item>, Sight> for TakesOut<S> {
    ghost use Rattle.wb_intake.specs.Plays.{takes_out};

    ghost then = { takes_out S.shape };
}

pub(crate) struct GivesBack;

impl Play<Option<Item>, Sight> for GivesBack {
    ghost use Rattle.wb_intake.specs.Plays.{gives_back};

    ghost then = { gives_back };
}

pub(crate) struct Publishes;

impl Play<Option<Item>, Sight> for Publishes {
    ghost use Rattle.wb_intake.specs.Plays.{publishes};

    ghost then = { publishes };
}

pub(crate) struct Tells;

impl Split<Sight> for Tells {
    ghost use Rattle.wb_intake.specs.Plays.{tells, note};

    ghost left = { tells };

    ghost right = { note };
}

pub(crate) struct Shows;

impl Split<Sight> for Shows {
    ghost use Rattle.wb_intake.specs.Plays.{shown};

    ghost left = { λ x. x };

    ghost right = { shown };
}

pub(crate) struct Founds;

impl Split<Sight> for Founds {
    ghost use Rattle.wb_intake.specs.Plays.{counting, owner};

    ghost left = { counting };

    ghost right = { owner };
}

pub(crate) struct Hears;

impl Join<Sight> for Hears {
    ghost use Rattle.wb_intake.specs.Plays.{hears, gone};

    ghost both = { hears };

    ghost spent = { gone };
}

pub(crate) struct Meets;

impl Join<Sight> for Meets {
    ghost use Rattle.wb_intake.specs.Plays.{meets, gone};

    ghost both = { meets };

    ghost spent = { gone };
}
