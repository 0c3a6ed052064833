//! Laws and known values of the definitions.

mod asked;
mod known;
mod layered;
mod waiting;
