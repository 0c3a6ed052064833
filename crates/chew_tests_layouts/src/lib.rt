//! Tests of the layouts, key by key.
#![tactic(auto)]

#[cfg(test)]
mod kinds;
#[cfg(test)]
mod known;
#[cfg(test)]
mod letters;
#[cfg(test)]
mod pinyin;
#[cfg(test)]
mod steps;
