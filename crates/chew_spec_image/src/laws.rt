//! Laws and known values of the definitions.

mod faults;
mod images;
mod values;
