use crate::{Key, Phrase, Syllable, print_bopomofo, read_bopomofo};

/// The code that a text is read as, or the place of its refusal.
fn code_or_place(text: &str) -> Result<u16, usize> {
    match read_bopomofo(text.as_bytes()) {
        Ok(syllable) => Ok(syllable.code()),
        Err(bad) => Err(bad.place),
    }
}

/// How many characters the phrase has that a text is, or the place of its refusal.
fn characters_or_place(text: &[u8]) -> Result<usize, usize> {
    match Phrase::read(text) {
        Ok(phrase) => Ok(phrase.characters()),
        Err(bad) => Err(bad.place),
    }
}

#[test]
fn a_text_is_its_syllable_or_is_refused_at_its_place(rt: HostRuntime) {
    let cases = [
        ("ㄘㄜˋ", Ok(10268)),
        ("ㄕˋ", Ok(8708)),
        ("ㄚ", Ok(8)),
        ("ㄇㄧㄥˊ", Ok(3 * 512 + 128 + 12 * 8 + 2)),
        ("ㄦˇ", Ok(13 * 8 + 3)),
        ("ㄋㄩ˙", Ok(7 * 512 + 3 * 128 + 1)),
        ("", Err(0)),
        ("ˊ", Err(2)),
        ("ˊㄅ", Err(2)),
        ("ㄅㄅ", Err(3)),
        ("ㄅˇˋ", Err(5)),
        ("ㄚㄧ", Err(3)),
        ("ㄓa", Err(3)),
    ];
    for (text, want) in cases {
        assert_eq!(rt; code_or_place(text), want, "{text}");
    }
}

#[test]
fn a_syllable_is_printed_by_its_marks(rt: HostRuntime) {
    for (code, want) in [(10268, "ㄘㄜˋ"), (8708, "ㄕˋ"), (3746, "ㄋㄧㄝˊ"), (8, "ㄚ")] {
        let Some(syllable) = Syllable::from_code(code) else {
            panic!(rt; "{code} is no code");
        };
        assert_eq!(rt; print_bopomofo(syllable).as_str(), want);
    }
    assert!(rt; Syllable::from_code(0).is_none());
    assert!(rt; Syllable::from_code(22 * 512).is_none());
    assert!(rt; Syllable::from_code(512 + 5).is_none());
}

#[test]
fn a_text_is_its_phrase_or_is_refused_at_its_place(rt: HostRuntime) {
    let cases: [(&[u8], Result<usize, usize>); 8] = [
        ("測".as_bytes(), Ok(1)),
        ("測試測試測試測試測試測".as_bytes(), Ok(11)),
        ("測試測試測試測試測試測試".as_bytes(), Err(33)),
        ("測 試".as_bytes(), Err(3)),
        ("測a".as_bytes(), Err(3)),
        ("測　".as_bytes(), Err(3)),
        (b"", Err(0)),
        (b"\xE6\xB8\xAC\xE8\xA9", Err(3)),
    ];
    for (text, want) in cases {
        assert_eq!(rt; characters_or_place(text), want);
    }
}

#[test]
fn a_key_has_from_1_to_11_syllables(rt: HostRuntime) {
    let syllables = [Syllable::default(); 12];
    assert!(rt; Key::of(&syllables[..0]).is_none());
    assert!(rt; Key::of(&syllables).is_none());
    let Some(key) = Key::of(&syllables[..11]) else {
        panic!(rt; "11 syllables are a key");
    };
    assert_eq!(rt; key.len(), 11);
}
