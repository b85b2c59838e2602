//! Integer programs, their boxes and their points.
#![tactic(auto)]

mod fractions;
mod parts;
mod point;
mod points;
mod program;

pub use fractions::{point_ok, point_value_up};
pub use parts::{Bounds, Column, Line, Mark, RowKind, Term};
pub use point::Point;
pub use points::{full_box, value, whole_point_ok};
pub use program::Program;
