//! What one context hides, another finds hidden.

use crate::looks::Place;
use crate::opened::{Two, are_by, close_two, open_two};
use crate::replies::Outcome;
use crate::steps::{Sample, find, hide, learn};
use std::test::Fail;

#[test]
fn what_one_hides_is_hidden_for_the_other_until_it_is_learnt(rt: HostRuntime) -> Result<(), Fail> {
    let sample = Sample::of("測試")?;
    let other = Sample::of("策是")?;
    let Two {
        shared,
        keeper,
        first,
        second,
    } = open_two(rt.alloc(), 1)?;
    let first = hide(&rt, &shared, first, &sample, Outcome::Hid);
    let second = find(&rt, Place::Here, &shared, second, &sample, (0, true));
    let second = hide(&rt, &shared, second, &sample, Outcome::NotThere);
    let second = hide(&rt, &shared, second, &other, Outcome::Full);
    let first = learn(&rt, &shared, first, &sample, 9318, (9318, 0));
    let second = find(&rt, Place::Here, &shared, second, &sample, (9318, false));
    let layers = close_two(&rt, rt.alloc(), shared, keeper, first, second);
    assert!(rt; are_by(layers.journal(), &[1, 2, 2, 2, 1, 2]));
    Ok(())
}
