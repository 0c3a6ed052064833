//! Known lines of an editor alone, over the five rows and an empty dictionary.

ghost use Rattle.std.specs.Prelude.{◌≡◌, ◌∷◌, [], codes, length};
ghost use Rattle.chew_spec_text.specs.Sample.{bytes_of};
ghost use Rattle.chew_spec_editor.specs.Sample.{after_typing, last_lines, with_cells, with_page};
ghost use Rattle.chew_spec_editor.specs.Settings.{standard_settings};

/// Two syllables, the second by its phrase with the first, and Enter.
pub fn known_phrase()
    ensures { last_lines 6 standard_settings (codes "hk4g4<E>")
        ≡ bytes_of "\t0\tㄘ\t\t\t\n" ∷ bytes_of "\t0\tㄘㄜ\t\t\t\n" ∷ bytes_of "策\t2\t\t\t\t\n" ∷ bytes_of "策\t2\tㄕ\t\t\t\n"
        ∷ bytes_of "測試\t4\t\t\t\t\n" ∷ bytes_of "\t0\t\t測試\t\t\n" ∷ [] }
{}

/// A syllable that the system has no row for is a bell, and nothing is held then.
pub fn known_unknown_syllable()
    ensures { last_lines 3 standard_settings (codes "18 ")
        ≡ bytes_of "\t0\tㄅ\t\t\t\n" ∷ bytes_of "\t0\tㄅㄚ\t\t\t\n" ∷ bytes_of "\t0\t\t\t\tbell\n" ∷ [] }
{}

/// A tone while nothing is held is a bell, and the buffer stays.
pub fn known_refused_key()
    ensures empty { last_lines 1 standard_settings (codes "4") ≡ bytes_of "\t0\t\t\t\tbell\n" ∷ [] }
    ensures behind { last_lines 1 standard_settings (codes "hk44") ≡ bytes_of "策\t2\t\t\t\tbell\n" ∷ [] }
{}

/// Backspace erases in the layout, then the cell before the cursor, and rings where there is none.
pub fn known_backspace()
    ensures cell { last_lines 2 standard_settings (codes "hk4<B><B>") ≡ bytes_of "\t0\t\t\t\t\n" ∷ bytes_of "\t0\t\t\t\tbell\n" ∷ [] }
    ensures held { last_lines 1 standard_settings (codes "hk<B>") ≡ bytes_of "\t0\tㄘ\t\t\t\n" ∷ [] }
{}

/// A break at the cursor parts a phrase, and a second one joins it again.
pub fn known_break()
    ensures lines { last_lines 3 standard_settings (codes "hk4g4<L><T><T>")
        ≡ bytes_of "測試\t2\t\t\t\t\n" ∷ bytes_of "策是\t2\t\t\t\t\n" ∷ bytes_of "測試\t2\t\t\t\t\n" ∷ [] }
    ensures looks { length (after_typing standard_settings (codes "hk4g4<L><T><T>")).calls ≡ 4 }
{}

/// A picked candidate becomes a choice, with which phrases go on: 測 agrees with 測試, and 策 does not.
pub fn known_choice()
    ensures window { last_lines 1 standard_settings (codes "hk4<V>") ≡ bytes_of "策\t2\t\t\t1/1 1策 2測\t\n" ∷ [] }
    ensures second { last_lines 3 standard_settings (codes "hk4<V>2g4")
        ≡ bytes_of "測\t2\t\t\t\t\n" ∷ bytes_of "測\t2\tㄕ\t\t\t\n" ∷ bytes_of "測試\t4\t\t\t\t\n" ∷ [] }
    ensures first { last_lines 1 standard_settings (codes "hk4<V>1g4") ≡ bytes_of "策是\t4\t\t\t\t\n" ∷ [] }
{}

/// Down goes from the longest candidates to shorter ones and back, and Esc closes the window. The cursor stays.
pub fn known_window()
    ensures { last_lines 5 standard_settings (codes "hk4g4<H><V><V><V><X>")
        ≡ bytes_of "測試\t0\t\t\t\t\n" ∷ bytes_of "測試\t0\t\t\t1/1 1測試\t\n" ∷ bytes_of "測試\t0\t\t\t1/1 1策 2測\t\n"
        ∷ bytes_of "測試\t0\t\t\t1/1 1測試\t\n" ∷ bytes_of "測試\t0\t\t\t\t\n" ∷ [] }
{}

/// With one candidate a page the next page of the last is the first, and a key of which the page has no candidate rings.
pub fn known_pages()
    ensures { last_lines 4 (with_page 1) (codes "hk4<V><N><N>3")
        ≡ bytes_of "策\t2\t\t\t1/2 1策\t\n" ∷ bytes_of "策\t2\t\t\t2/2 1測\t\n" ∷ bytes_of "策\t2\t\t\t1/2 1策\t\n"
        ∷ bytes_of "策\t2\t\t\t1/2 1策\tbell\n" ∷ [] }
{}

/// A symbol parts two runs, which are looked up apart.
pub fn known_symbol()
    ensures lines { last_lines 2 standard_settings (codes "hk4!g4<E>") ≡ bytes_of "策!是\t5\t\t\t\t\n" ∷ bytes_of "\t0\t\t策!是\t\t\n" ∷ [] }
    ensures calls { length (after_typing standard_settings (codes "hk4!g4")).calls ≡ 4 }
{}

/// A full buffer commits its leading piece.
pub fn known_release()
    ensures { last_lines 1 (with_cells 2) (codes "hk4g4hk4") ≡ bytes_of "策\t2\t\t測試\t\t\n" ∷ [] }
{}

/// A phrase is added and forgotten, and isn't there to be forgotten again.
pub fn known_added_and_forgotten()
    ensures lines { last_lines 3 standard_settings (codes "hk4g4<L><T><H><C2><F2><F2>")
        ≡ bytes_of "策是\t0\t\t\t\tadded\n" ∷ bytes_of "策是\t0\t\t\t\tforgot\n" ∷ bytes_of "策是\t0\t\t\t\tnone\n" ∷ [] }
    ensures calls { length (after_typing standard_settings (codes "hk4g4<L><T><H><C2><F2><F2>")).calls ≡ 9 }
{}

/// A hidden phrase is shown no more, is hidden once, and stays hidden after an Enter that commits another.
pub fn known_hidden()
    ensures hidden { last_lines 1 standard_settings (codes "hk4g4<H><K2>") ≡ bytes_of "策是\t0\t\t\t\thidden\n" ∷ [] }
    ensures after { last_lines 2 standard_settings (codes "hk4g4<H><K2><E>hk4g4<H><K2><K2>")
        ≡ bytes_of "策是\t0\t\t\t\thidden\n" ∷ bytes_of "策是\t0\t\t\t\tnone\n" ∷ [] }
{}

/// A phrase that was hidden is forgotten by its syllables, and then the system's shows again.
pub fn known_hidden_and_forgotten()
    ensures { last_lines 7 standard_settings (codes "hk4g4<H><K2><V>2<R><V>2<H><F2>")
        ≡ bytes_of "策是\t0\t\t\t1/1 1策 2測\t\n" ∷ bytes_of "測是\t0\t\t\t\t\n" ∷ bytes_of "測是\t2\t\t\t\t\n" ∷ bytes_of "測是\t2\t\t\t1/1 1是 2試\t\n"
        ∷ bytes_of "測試\t2\t\t\t\t\n" ∷ bytes_of "測試\t0\t\t\t\t\n" ∷ bytes_of "測試\t0\t\t\t\tforgot\n" ∷ [] }
{}
