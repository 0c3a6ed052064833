//! Laws of the definitions.

mod calls;
mod crashes;
mod lists;
mod memory;
