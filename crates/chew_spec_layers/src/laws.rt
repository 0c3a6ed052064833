//! Laws and known values of the definitions.

mod known;
mod marks;
mod needs;
mod overlays;
mod standings;
mod steps;
mod stretches;
mod touches;
