ghost use Rattle.std.specs.Prelude.{◌≡◌, ◌≤◌, SomeIff, OnSome, IsTrue};
ghost use Rattle.std.specs.Option.{option_map};
ghost use Rattle.chew_spec_layout.specs.Spellings.{spelling_of};
ghost use Rattle.chew_spec_layout.specs.Pinyin.{is_tone_key, tone_of};
ghost use Rattle.chew_spec_syllable.specs.Syllable.{code_of};
ghost use Rattle.chew_spec_syllable.specs.SyllableText.{front_parts};

use crate::lookup::marks_of;
use arrayvec::ArrayString;
use chew_syllable::{Parts, Syllable, read_bopomofo};

/// The tone of a digit from 1 to 5, or of Space.
pub(crate) fn tone_of(key: u8) -> Option<u8>
    ensures value { SomeIff result (IsTrue (is_tone_key key)) (tone_of key) }
    ensures range { OnSome result (tone_of key ≤ 4) }
{
    match key {
        b' ' | b'1' => Some(0),
        b'2' => Some(2),
        b'3' => Some(3),
        b'4' => Some(4),
        b'5' => Some(1),
        _ => None,
    }
}

/// The syllable that the letters spell, with this tone.
pub(crate) fn syllable_of(letters: &[u8], tone: u8) -> Option<Syllable>
    requires { tone ≤ 4 }
    ensures { result ≡ option_map (λ spelling. code_of (record (front_parts spelling.marks) { tone = tone })) (spelling_of letters.now) }
{
    let (initial, ending) = marks_of(letters)?;
    let mut marks = ArrayString::<9>::new();
    marks.push_str(initial);
    marks.push_str(ending);
    match read_bopomofo(marks.as_str().as_bytes()) {
        Ok(syllable) => Syllable::of(Parts {
            tone,
            ..syllable.parts()
        }),
        Err(_) => None,
    }
}
