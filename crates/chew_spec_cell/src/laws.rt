//! Laws of the definitions.

mod passes;
mod seen;
