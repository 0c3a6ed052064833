//! Laws and known values of the definitions.

mod last_rounds;
mod session;
