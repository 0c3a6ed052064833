ghost use Rattle.std.specs.Prelude.{◌≡◌, ◌∷◌, []};
ghost use Rattle.chew_spec_text.specs.DictionaryText.{freq_in};

use chew_syllable::GREATEST_FREQ;
use chew_text::number_up_to;

/// The frequency that the digits write, with any number of zeros in front.
pub(crate) fn read_freq(digits: &[u8]) -> Option<u32>
    ensures { result ≡ freq_in (digits.now ∷ []) }
{
    let freq = number_up_to(digits, u64::from(GREATEST_FREQ))?;
    Some(freq as u32)
}
