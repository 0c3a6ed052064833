ghost use Rattle.std.specs.Prelude.{◌≡◌, ◌≤◌, ◌+◌, ◌++◌, length, encode_utf8};
ghost use Rattle.arrayvec.specs.ArrayString.{array_string_len};
ghost use Rattle.chew_spec_syllable.specs.Syllable.{parts_of};
ghost use Rattle.chew_spec_syllable.specs.SyllableText.{initial_marks, medial_marks, final_marks, tone_marks, mark_text, text_of, code_reading};

use crate::parts::Parts;
use crate::syllable::Syllable;
use arrayvec::ArrayString;

/// The marks of the initials, in the order of their numbers; the other kinds follow.
const INITIALS: [char; 21] = [
    'ㄅ', 'ㄆ', 'ㄇ', 'ㄈ', 'ㄉ', 'ㄊ', 'ㄋ', 'ㄌ', 'ㄍ', 'ㄎ', 'ㄏ', 'ㄐ', 'ㄑ', 'ㄒ', 'ㄓ', 'ㄔ', 'ㄕ', 'ㄖ', 'ㄗ',
    'ㄘ', 'ㄙ',
];

const MEDIALS: [char; 3] = ['ㄧ', 'ㄨ', 'ㄩ'];

const FINALS: [char; 13] = [
    'ㄚ', 'ㄛ', 'ㄜ', 'ㄝ', 'ㄞ', 'ㄟ', 'ㄠ', 'ㄡ', 'ㄢ', 'ㄣ', 'ㄤ', 'ㄥ', 'ㄦ',
];

const TONES: [char; 4] = ['˙', 'ˊ', 'ˇ', 'ˋ'];

/// Appends the mark of this number; nothing for 0.
fn push_mark(text: &mut ArrayString<11>, marks: &[char], number: u8)
    requires known { number ≤ length marks.now }
    requires room { array_string_len text.old + length (mark_text marks.now number) ≤ 11 }
    ensures value { text.new.bytes ≡ text.old.bytes ++ mark_text marks.now number }
    ensures count { array_string_len text.new ≡ array_string_len text.old + length (mark_text marks.now number) }
{
    if number > 0 {
        text.push(marks[number as usize - 1]);
    }
}

/// Appends the mark of an initial.
fn push_initial(text: &mut ArrayString<11>, number: u8)
    requires known { number ≤ 21 }
    requires room { array_string_len text.old ≤ 8 }
    ensures value { text.new.bytes ≡ text.old.bytes ++ mark_text initial_marks number }
    ensures count { array_string_len text.new ≤ array_string_len text.old + 3 }
{
    push_mark(text, &INITIALS, number);
}

/// Appends the mark of a medial.
fn push_medial(text: &mut ArrayString<11>, number: u8)
    requires known { number ≤ 3 }
    requires room { array_string_len text.old ≤ 8 }
    ensures value { text.new.bytes ≡ text.old.bytes ++ mark_text medial_marks number }
    ensures count { array_string_len text.new ≤ array_string_len text.old + 3 }
{
    push_mark(text, &MEDIALS, number);
}

/// Appends the mark of a final.
fn push_final(text: &mut ArrayString<11>, number: u8)
    requires known { number ≤ 13 }
    requires room { array_string_len text.old ≤ 8 }
    ensures value { text.new.bytes ≡ text.old.bytes ++ mark_text final_marks number }
    ensures count { array_string_len text.new ≤ array_string_len text.old + 3 }
{
    push_mark(text, &FINALS, number);
}

/// Appends the mark of a tone.
fn push_tone(text: &mut ArrayString<11>, number: u8)
    requires known { number ≤ 4 }
    requires room { array_string_len text.old ≤ 9 }
    ensures value { text.new.bytes ≡ text.old.bytes ++ mark_text tone_marks number }
    ensures count { array_string_len text.new ≤ array_string_len text.old + 2 }
{
    push_mark(text, &TONES, number);
}

impl Parts {
    /// The marks of the parts that are there, in UTF-8.
    #[tactic(auto, unfolding(chew_spec_syllable::specs::SyllableText::text_of))]
    pub fn text(self) -> ArrayString<11>
        requires initial { self.initial ≤ 21 }
        requires medial { self.medial ≤ 3 }
        requires finals { self.final ≤ 13 }
        requires tone { self.tone ≤ 4 }
        ensures { result.bytes ≡ text_of self }
    {
        let mut text = ArrayString::new();
        push_initial(&mut text, self.initial);
        push_medial(&mut text, self.medial);
        push_final(&mut text, self.final_);
        push_tone(&mut text, self.tone);
        text
    }
}

/// The text of a syllable, which is read as that syllable.
pub fn print_bopomofo(syllable: Syllable) -> ArrayString<11>
    ensures value { result.bytes ≡ text_of (parts_of syllable) }
    ensures read { code_reading result.bytes ≡ Ok syllable }
{
    syllable.parts().text()
}
