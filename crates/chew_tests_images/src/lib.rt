//! Tests of images: known bytes and known faults, a second reading of changed bytes, what is read back, and a large one.
#![tactic(auto)]

#[cfg(test)]
mod changed_bytes;
#[cfg(test)]
mod limits;
#[cfg(test)]
mod one_row;
#[cfg(test)]
mod order;
#[cfg(test)]
mod read_back;
#[cfg(test)]
mod second_reading;
