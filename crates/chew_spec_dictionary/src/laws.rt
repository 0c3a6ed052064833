//! Laws and known values of the definitions.

mod counts;
mod growth;
mod hiding;
mod histories;
mod hits;
mod invariants;
mod learning;
mod legal;
mod maps;
mod order;
mod pairs;
mod rows;
mod updates;
mod values;
