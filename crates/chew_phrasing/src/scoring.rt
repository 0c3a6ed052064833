ghost use Rattle.std.specs.Prelude.{◌≡◌, ◌<◌, ◌≤◌, ◌*◌, ◌^◌, ◌+ℤ◌, pos, length, sum, sum_by, zip, All};
ghost use Rattle.chew_spec_phrasing.specs.Score.{difference, gain, loss, spread, weight};

/// The score of a segmentation by the lengths and the frequencies of its pieces:
/// `1000 * n + 1000 * (6 * n / k) - 100 * p + f`, where `n` syllables are in `k` pieces, `p` is the sum of the
/// differences of lengths over all pairs of pieces, and `f` the sum of the frequencies, of which a piece of one
/// syllable counts a 512th.
pub fn score(lengths: &[u8], freqs: &[u32]) -> i64
    requires as_many { length lengths.now ≡ length freqs.now }
    requires some { 0 < length lengths.now }
    requires syllables { sum lengths.now ≤ 39 }
    requires ranges { All (λ len. (1 ≤ len) × (len ≤ 11)) lengths.now }
    requires frequencies { All (λ freq. freq ≤ 99_999_999) freqs.now }
    ensures { result +ℤ pos (loss lengths.now) ≡ pos (gain lengths.now freqs.now) }
{
    gain_of(lengths, freqs) as i64 - loss_of(lengths) as i64
}

/// What pieces of these lengths and frequencies gain.
pub(crate) fn gain_of(lengths: &[u8], freqs: &[u32]) -> u64
    requires some { 0 < length lengths.now }
    requires few { length lengths.now ≤ 39 }
    ensures value { result ≡ gain lengths.now freqs.now }
    ensures small { result < 2 ^ 62 }
{
    let syllables = sum_of(lengths);
    1000 * syllables + 1000 * (6 * syllables / lengths.len() as u64) + weights(lengths, freqs)
}

/// What pieces of these lengths lose.
pub(crate) fn loss_of(lengths: &[u8]) -> u64
    requires { length lengths.now ≤ 39 }
    ensures value { result ≡ loss lengths.now }
    ensures small { result < 2 ^ 62 }
{
    100 * spread_of(lengths)
}

/// The sum of the lengths.
fn sum_of(lengths: &[u8]) -> u64
    requires { length lengths.now ≤ 39 }
    ensures value { result ≡ sum lengths.now }
    ensures small { result ≤ 255 * length lengths.now }
{
    match lengths {
        [] => 0,
        [len, rest @ ..] => u64::from(*len) + sum_of(rest),
    }
}

/// What the frequencies of pieces of these lengths count.
fn weights(lengths: &[u8], freqs: &[u32]) -> u64
    requires { length lengths.now ≤ 39 }
    ensures value { result ≡ sum_by weight (zip lengths.now freqs.now) }
    ensures small { result ≤ 2 ^ 32 * length lengths.now }
{
    match lengths {
        [] => 0,
        [len, rest @ ..] => match freqs {
            [] => 0,
            [freq, others @ ..] => weight_of(*len, *freq) + weights(rest, others),
        },
    }
}

/// What the frequency of a piece counts: a piece of one syllable has a 512th of it.
pub(crate) fn weight_of(len: u8, freq: u32) -> u64
    ensures value { result ≡ weight (len, freq) }
    ensures small { result < 2 ^ 32 }
{
    if len == 1 {
        u64::from(freq) / 512
    } else {
        u64::from(freq)
    }
}

/// The sum of the differences over all pairs of lengths.
fn spread_of(lengths: &[u8]) -> u64
    requires { length lengths.now ≤ 39 }
    ensures value { result ≡ spread lengths.now }
    ensures small { result ≤ 255 * 39 * length lengths.now }
{
    match lengths {
        [] => 0,
        [len, rest @ ..] => differences(*len, rest) + spread_of(rest),
    }
}

/// The sum of the differences of one length to others.
fn differences(len: u8, others: &[u8]) -> u64
    requires { length others.now ≤ 39 }
    ensures value { result ≡ sum_by (difference len) others.now }
    ensures small { result ≤ 255 * length others.now }
{
    match others {
        [] => 0,
        [other, rest @ ..] => u64::from(len.abs_diff(*other)) + differences(len, rest),
    }
}
