//! The pre-edit buffer: cells, a cursor among them, breaks and choices.
#![tactic(auto)]

mod cell_item;
mod copied;
mod editing;
mod kept;
mod marking;
mod placed_run;
mod preedit;
mod runs;
mod splice;

pub use cell_item::CellItem;
pub use placed_run::PlacedRun;
pub use preedit::Preedit;
pub use runs::RUNS_LIMIT;
