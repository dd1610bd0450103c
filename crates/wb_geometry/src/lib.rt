//! What everything else speaks of: the numbers of a cache, images and histories, and the parts of a request.
//!
//! `specs/` has the model that the other crates' contracts cite: an image is a list of sectors, a history is a list of
//! entries by place, and `after` says what a history makes of an image (docs/MODEL.md).
#![tactic(auto)]

mod block;
mod entry;
mod geometry;
mod request;
mod splitting;
mod spot;
mod which;

pub use block::{Block, join_sectors};
pub use entry::Entry;
pub use geometry::{Geometry, GeometryRefused};
pub use request::{Part, Places};
pub use splitting::{Parts, split};
pub use spot::Spot;
pub use which::Which;
