//! Tests of the dictionary that contexts share: known calls of two contexts and a keeper.
#![tactic(auto)]

#[cfg(test)]
mod hiding;
#[cfg(test)]
mod keeping;
#[cfg(test)]
mod known_calls;
#[cfg(test)]
mod looks;
#[cfg(test)]
mod needs;
#[cfg(test)]
mod opened;
#[cfg(test)]
mod replies;
#[cfg(test)]
mod seats;
#[cfg(test)]
mod steps;
