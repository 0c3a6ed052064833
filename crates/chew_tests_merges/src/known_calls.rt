//! The calls of known keys through layers, with their replies.

use crate::steps::{Step, are_answered};
use chew_layer_samples::InLayers;
use chew_layers::Need;
use chew_samples::{CE, SHI, syllable};
use std::test::Fail;

/// Two cells of a buffer that has no more: the third syllable releases the first piece, which is learnt.
#[test]
fn a_released_piece_is_learnt(rt: HostRuntime) -> Result<(), Fail> {
    let mut layers = InLayers::empty(rt.alloc(), 0, 65_536)?;
    let run = [syllable(CE), syllable(SHI)];
    let first = &run[..1];
    let steps = [
        Step::Misses(first),
        Step::Misses(&run),
        Step::Learns {
            key: &run,
            text: "測試",
            orig: 9318,
            freq: 9318,
            time: 0,
        },
        Step::Misses(first),
        Step::Freezes(4),
        Step::Waits { life: 1, rows: 1 },
        Step::Installs,
        Step::Finds(&run, "測試", 9318),
    ];
    are_answered(&rt, &mut layers, &steps)
}

/// The nine calls of a phrase that is added by the user, forgotten, and forgotten once more: what is saved is the empty map.
#[test]
fn an_added_phrase_is_forgotten_once(rt: HostRuntime) -> Result<(), Fail> {
    let mut layers = InLayers::empty(rt.alloc(), 0, 65_536)?;
    let run = [syllable(CE), syllable(SHI)];
    let first = &run[..1];
    let steps = [
        Step::Misses(first),
        Step::Misses(&run),
        Step::Misses(&run),
        Step::Learns {
            key: &run,
            text: "策是",
            orig: 0,
            freq: 1,
            time: 0,
        },
        Step::Finds(&run, "策是", 1),
        Step::Forgets(&run, "策是"),
        Step::Misses(&run),
        Step::ForgetsNothing(&run, "策是"),
        Step::Misses(&run),
        Step::Needs(Need::Fresh),
        Step::Freezes(9),
        Step::Needs(Need::Waiting),
        Step::Waits { life: 1, rows: 0 },
        Step::Installs,
        Step::Needs(Need::Nothing),
    ];
    are_answered(&rt, &mut layers, &steps)
}
