//! Laws of the definitions.

mod crashes;
mod known;
mod recovery;
mod slots;
