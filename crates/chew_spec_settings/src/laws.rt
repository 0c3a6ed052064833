//! Laws and known values of the definitions.

mod kinds;
mod known;
mod order;
mod ranges;
mod values;
