//! Phrasing: the combined rows of a run, and its best segmentation.
#![tactic(auto)]

mod characters;
mod combined;
mod counts;
mod entry;
mod first_place;
mod first_row;
mod grid;
mod interval;
mod level;
mod merge;
mod order;
mod piece;
mod ranking;
mod rules;
mod run_grid;
mod scoring;
mod segment;
mod table;

pub use combined::{combine, combine_at};
pub use piece::{Choice, Piece};
pub use scoring::score;
pub use segment::{best, best_of_run};
