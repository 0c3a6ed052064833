//! Keys that a fixed rule makes, as a script has them.

use crate::failure::Failure;
use chew_script::{CONTEXTS_LIMIT, ROUNDS_LIMIT};
use std::alloc::Global;

/// What the rule takes its keys from: whole syllables, parts of one, one that has no row, symbols, and each named key.
const STEPS: [&str; 64] = [
    "hk4<E>",
    "g4<E>",
    "hk4g4<E>",
    "hk4g4<E>",
    "g4hk4<E>",
    "hk4g4hk4<E>",
    "hk4",
    "g4",
    "hk4g4",
    "g4hk4",
    "hk4hk4g4",
    "g4g4",
    "h",
    "k",
    "4",
    "18 ",
    "!",
    " ",
    "a",
    "1",
    "2",
    "<lt>",
    "<E>",
    "<E>",
    "<E>",
    "<E>",
    "<E>",
    "<E>",
    "<E>",
    "<E>",
    "<B>",
    "<D>",
    "<L>",
    "<R>",
    "<H>",
    "<Z>",
    "<U>",
    "<V>",
    "<V><V>",
    "<P>",
    "<N>",
    "<T>",
    "<X>",
    "<H><C2>",
    "<C2>",
    "<C3>",
    "<C4>",
    "<H><F1>",
    "<H><F2>",
    "<F2>",
    "<F3>",
    "<H><K2>",
    "<K2>",
    "<K3>",
    "<H><V>2",
    "<V>2",
    "<V><V>1",
    "<L><L><V><V>2",
    "<L><T>",
    "<H><R><T>",
    "hk4g4<H><C2><E>",
    "hk4g4<L><T><E>",
    "hk4<V>2<E>",
    "g4<V>2<E>",
];

/// How many steps a context makes.
const STEPS_EACH: u32 = 1200;

/// The keys of a context, from this number on.
fn walk(alloc: Global, seed: u32) -> Result<String, Failure> {
    let mut text = String::new(alloc);
    let mut number = seed;
    for _step in 0..STEPS_EACH {
        number = number.wrapping_mul(1_103_515_245).wrapping_add(12_345);
        let at = (number >> 16) % 64;
        if let Some(step) = STEPS.get(at as usize) {
            text.push_str(step)?;
        }
    }
    Ok(text)
}

/// The keys of sixteen contexts.
pub(crate) fn walks(alloc: Global, seed: u32) -> Result<Vec<String>, Failure> {
    let mut all = Vec::new(alloc);
    for context in 0..CONTEXTS_LIMIT as u32 {
        let from = seed.wrapping_mul(16).wrapping_add(context);
        all.push(walk(alloc, from)?)?;
    }
    Ok(all)
}

/// The script of these contexts, with as many rounds as a script may have.
pub(crate) fn script_of(alloc: Global, walks: &[String]) -> Result<String, Failure> {
    let mut script = String::new(alloc);
    for _round in 0..ROUNDS_LIMIT {
        script.push_str("round\n")?;
    }
    let mut context = 0u32;
    for walk in walks {
        context = context.wrapping_add(1);
        let line = format!(in alloc; "{context}:{walk}\n")?;
        script.push_str(&line)?;
    }
    Ok(script)
}
