//! Tests of phrasing: known scores and segmentations, the most of a run, and a second reading of the rules that tries every
//! segmentation.
#![tactic(auto)]

#[cfg(test)]
mod agreement;
#[cfg(test)]
mod combined;
#[cfg(test)]
mod draw;
#[cfg(test)]
mod every;
#[cfg(test)]
mod hits;
#[cfg(test)]
mod inputs;
#[cfg(test)]
mod known;
#[cfg(test)]
mod largest;
#[cfg(test)]
mod many_rows;
#[cfg(test)]
mod phrasable;
#[cfg(test)]
mod runs;
