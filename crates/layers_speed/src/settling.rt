use crate::figures::print_time;
use crate::learning::Learning;
use chew_layers::{KEEPER, Layers};
use chew_measuring::Failure;
use chew_merge::merge;
use chew_trie_read::Trie;
use std::alloc::Global;
use std::io::Print;
use std::sync::Arc;
use std::time::{CpuClock, Duration};

/// What became the base, and how long it took.
#[derive(Drop)]
struct Settled {
    marks: usize,
    map: Arc<Trie>,
    freeze: Duration,
    merge: Duration,
    install: Duration,
}

/// Freezes the layers, merges the snapshot and installs it.
fn settle_layers<R: CpuClock>(
    rt: &R,
    alloc: Global,
    layers: &mut Layers,
) -> Result<Settled, Failure> {
    let start = rt.thread_cpu_time()?;
    let snapshot = layers.freeze(KEEPER)?;
    let frozen = rt.thread_cpu_time()?;
    let map = Arc::new(alloc, merge(alloc, &snapshot)?)?;
    let merged = rt.thread_cpu_time()?;
    layers.install(KEEPER, Arc::try_clone(&map)?);
    let installed = rt.thread_cpu_time()?;
    Ok(Settled {
        marks: snapshot.frozen.len(),
        map,
        freeze: frozen.saturating_sub(start),
        merge: merged.saturating_sub(frozen),
        install: installed.saturating_sub(merged),
    })
}

/// Prints what became the base, and how long it took.
fn print_settled<R: Print>(rt: &R, settled: &Settled) -> Result<(), Failure> {
    println!(rt;
        "{} marks, {} rows of {} bytes",
        settled.marks,
        settled.map.total(),
        settled.map.bytes().len()
    )?;
    print_time(rt, "freeze", settled.freeze)?;
    print_time(rt, "merge, its image written and checked", settled.merge)?;
    print_time(rt, "install", settled.install)
}

/// Freezes the layers, merges the snapshot and installs it, and prints how long each took.
pub(crate) fn settle<R: CpuClock + Print>(rt: &R, learning: &mut Learning) -> Result<(), Failure> {
    let settled = settle_layers(rt, learning.alloc, &mut learning.layers)?;
    print_settled(rt, &settled)
}
