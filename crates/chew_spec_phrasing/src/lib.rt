//! Definitions of combined rows, usable intervals, segmentations, their score and the best one.
#![tactic(auto)]

mod laws;
