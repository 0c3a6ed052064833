//! Known lines of a trace.

ghost use Rattle.std.specs.Prelude.{◌≡◌, [], ◌∷◌};
ghost use Rattle.chew_spec_dictionary.specs.Call.{Look, Learn, Forget, Hide, Freeze, Install};
ghost use Rattle.chew_spec_text.specs.Entry.{entry_text};
ghost use Rattle.chew_spec_text.specs.Line.{with_line_feed};
ghost use Rattle.chew_spec_text.specs.Sample.{bytes_of};

/// The line of an entry of each call.
pub fn known_entries()
    ensures look { entry_text (record { who = 1; call = Look (10268 ∷ (8708 ∷ [])) }) ≡ with_line_feed (bytes_of "1 look 10268,8708") }
    ensures learn { entry_text (record { who = 1; call = Learn (10268 ∷ (8708 ∷ [])) (bytes_of "測試") 9318 9318 })
        ≡ with_line_feed (bytes_of "1 learn 10268,8708 測試 9318 9318") }
    ensures forget { entry_text (record { who = 1; call = Forget (10268 ∷ (8708 ∷ [])) (bytes_of "測試") }) ≡ with_line_feed (bytes_of "1 forget 10268,8708 測試") }
    ensures hide { entry_text (record { who = 3; call = Hide (10268 ∷ (8708 ∷ [])) (bytes_of "測試") }) ≡ with_line_feed (bytes_of "3 hide 10268,8708 測試") }
    ensures freeze { entry_text (record { who = 0; call = Freeze }) ≡ with_line_feed (bytes_of "0 freeze") }
    ensures install { entry_text (record { who = 0; call = Install 3 }) ≡ with_line_feed (bytes_of "0 install 3") }
    ensures learn_new { entry_text (record { who = 2; call = Learn (10268 ∷ (8708 ∷ [])) (bytes_of "策是") 0 9318 })
        ≡ with_line_feed (bytes_of "2 learn 10268,8708 策是 0 9318") }
    ensures no_syllable { entry_text (record { who = 1; call = Look [] }) ≡ with_line_feed (bytes_of "1 look ") }
    ensures one_syllable { entry_text (record { who = 16; call = Look (8708 ∷ []) }) ≡ with_line_feed (bytes_of "16 look 8708") }
{}
