//! Known updates of a frequency.

use chew_plain::next_freq;

#[test]
fn frequencies_rise_and_fall(rt: HostRuntime) {
    assert_eq!(rt; next_freq(99_999_999, 0, 99_999_999, 0), 99_999_999);
    assert_eq!(rt; next_freq(100, 0, 1000, 3999), 301);
    assert_eq!(rt; next_freq(100, 0, 1000, 4000), 201);
    assert_eq!(rt; next_freq(100, 0, 1000, 49_999), 201);
    assert_eq!(rt; next_freq(100, 0, 1000, 50_000), 80);
    assert_eq!(rt; next_freq(105, 100, 200, 50_000), 100);
}
