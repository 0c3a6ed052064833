//! Tests of the editor over a system of five rows.
#![tactic(auto)]

#[cfg(test)]
mod alone;
#[cfg(test)]
mod best;
#[cfg(test)]
mod book;
#[cfg(test)]
mod editor;
#[cfg(test)]
mod largest;
#[cfg(test)]
mod library;
#[cfg(test)]
mod opened;
#[cfg(test)]
mod part;
#[cfg(test)]
mod rows;
#[cfg(test)]
mod samples;
#[cfg(test)]
mod second;
#[cfg(test)]
mod second_keys;
#[cfg(test)]
mod walk;
