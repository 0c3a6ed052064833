//! Laws and known values of the definitions.

mod kept;
mod known_edits;
mod known_runs;
mod known_windows;
mod runs;
mod shown;
mod touched;
mod undone;
mod windows;
