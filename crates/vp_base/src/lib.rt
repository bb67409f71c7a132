//! Base types of all crates: sizes, places, grids, limits, planes, pictures, byte lists, counted readers and writers.
#![tactic(auto)]

mod byte_list;
mod counted;
mod grid;
mod limits;
mod near;
mod picture;
mod place;
mod plane;

pub use byte_list::ByteList;
pub use counted::{Counted, Device, FailAt, put_all};
pub use grid::Grid;
pub use limits::{Dim, DimFault, Limits};
pub use near::Near;
pub use picture::Picture;
pub use place::Place;
pub use plane::Plane;
