//! Tests of the user's dictionary in layers beside the plain map: thousands of calls, and calls that are refused memory.
#![tactic(auto)]

#[cfg(test)]
mod both;
#[cfg(test)]
mod many_calls;
#[cfg(test)]
mod plainly;
#[cfg(test)]
mod refused_memory;
#[cfg(test)]
mod replies;
#[cfg(test)]
mod rule;
#[cfg(test)]
mod same_map;
