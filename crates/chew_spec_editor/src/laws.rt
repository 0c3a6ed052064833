//! Laws and known values of the definitions.

mod best;
mod calls;
mod commits;
mod hidden;
mod kept;
mod keys;
mod known;
mod learning;
mod shown;
mod stretches;
mod talk;
mod turns;
mod typing;
mod whole_talks;
