//! Laws of each call on three layers that stand for the plain map.

ghost use Rattle.std.specs.Prelude.{◌≡◌, ℕ, ◌+◌, ◌-◌, ◌^◌, min, List, length, false, true, Some, None, option_map, unwrap_or};
ghost use Rattle.chew_spec_syllable.specs.Row.{Row};
ghost use Rattle.chew_spec_dictionary.specs.Call.{Look, Learn, Forget, Hide, Freeze, Install, Rows, Learned, Full, Forgot, NotThere, Hid, Frozen};
ghost use Rattle.chew_spec_dictionary.specs.Dictionary.{learn, forget, hide};
ghost use Rattle.chew_spec_dictionary.specs.History.{start_of, after, answer, installs_waiting};
ghost use Rattle.chew_spec_dictionary.specs.Look.{hits_of};
ghost use Rattle.chew_spec_dictionary.specs.System.{row_of};
ghost use Rattle.chew_spec_layers.specs.Layers.{Layers, Waiting, map_in, dictionary_in, noted, marked_by, newly_frozen, frozen_by, installed_by};
ghost use Rattle.chew_spec_layers.specs.Mark.{Live, Grave};
ghost use Rattle.chew_spec_layers.specs.Overlay.{overlay};
ghost use Rattle.chew_spec_layers.specs.Standing.{StandForMap};
ghost use Rattle.chew_spec_layers.specs.Touches.{tells_change};

/// What each call that is not the keeper's makes of layers, so that they go on to stand for the plain map, by the reply of the
/// dictionary that they hold: a look-up is noted; a learn marks its pair with the frequency and the time of its reply, and the
/// life rises; a forget marks it with a grave; a hide with the frequency that it had, or 0; and a call that changes nothing is
/// noted.
pub fn calls_of_users()
    ensures look { (layers : Layers) (who : ℕ) (run : List ℕ) → StandForMap layers → StandForMap (noted layers (record { who = who; call = Look run })) }
    ensures learn { (layers : Layers) (who : ℕ) (key phrase : List ℕ) (orig peak freq time : ℕ) → StandForMap layers
        → (learn (dictionary_in layers) key phrase orig peak).reply ≡ Learned freq time
        → StandForMap (marked_by layers (record { who = who; call = Learn key phrase orig peak })
        (record { key = key; phrase = phrase; mark = Live freq time }) (min (layers.life + 1) (2 ^ 64 - 1))) }
    ensures full { (layers : Layers) (who : ℕ) (key phrase : List ℕ) (orig peak : ℕ) → StandForMap layers
        → (learn (dictionary_in layers) key phrase orig peak).reply ≡ Full
        → StandForMap (noted layers (record { who = who; call = Learn key phrase orig peak })) }
    ensures forget { (layers : Layers) (who : ℕ) (key phrase : List ℕ) → StandForMap layers
        → (forget (dictionary_in layers) key phrase).reply ≡ Forgot
        → StandForMap (marked_by layers (record { who = who; call = Forget key phrase })
        (record { key = key; phrase = phrase; mark = Grave }) layers.life) }
    ensures not_there { (layers : Layers) (who : ℕ) (key phrase : List ℕ) → StandForMap layers
        → (forget (dictionary_in layers) key phrase).reply ≡ NotThere
        → StandForMap (noted layers (record { who = who; call = Forget key phrase })) }
    ensures hide { (layers : Layers) (who : ℕ) (key phrase : List ℕ) (row : Row) → StandForMap layers
        → row_of (dictionary_in layers).pairs key phrase ≡ Some row → (hide (dictionary_in layers) key phrase).reply ≡ Hid
        → StandForMap (marked_by layers (record { who = who; call = Hide key phrase })
        (record { key = key; phrase = phrase; mark = Live row.freq (2 ^ 64 - 1) }) layers.life) }
    ensures new_hide { (layers : Layers) (who : ℕ) (key phrase : List ℕ) → StandForMap layers
        → row_of (dictionary_in layers).pairs key phrase ≡ None → (hide (dictionary_in layers) key phrase).reply ≡ Hid
        → StandForMap (marked_by layers (record { who = who; call = Hide key phrase })
        (record { key = key; phrase = phrase; mark = Live 0 (2 ^ 64 - 1) }) layers.life) }
    ensures hide_same { (layers : Layers) (who : ℕ) (key phrase : List ℕ) → StandForMap layers
        → tells_change (hide (dictionary_in layers) key phrase).reply ≡ false
        → StandForMap (noted layers (record { who = who; call = Hide key phrase })) }
{}

/// A freeze has the fresh layer wait, with the journal's length as its number, and leaves no fresh mark; where a layer waits
/// already, the freeze is noted alone. An install of a base that has what waits leaves the fresh layer, nothing waits then,
/// and it is legal.
pub fn calls_of_the_keeper()
    ensures freeze { (layers : Layers) (who : ℕ) → StandForMap layers → StandForMap (frozen_by layers who) }
    ensures newly { (layers : Layers) (who : ℕ) → layers.frozen ≡ None → frozen_by layers who ≡ newly_frozen layers who }
    ensures waits { (layers : Layers) (who : ℕ) → (newly_frozen layers who).frozen
        ≡ Some (record { marks = layers.fresh; number = length layers.journal; life = layers.life }) }
    ensures again { (layers : Layers) (who : ℕ) (waiting : Waiting) → layers.frozen ≡ Some waiting
        → frozen_by layers who ≡ noted layers (record { who = who; call = Freeze }) }
    ensures install { (layers : Layers) (who : ℕ) (waiting : Waiting) (rows : List Row) → StandForMap layers → layers.frozen ≡ Some waiting
        → rows ≡ overlay layers.base waiting.marks → StandForMap (installed_by layers who waiting rows) }
    ensures kept { (layers : Layers) (who : ℕ) (waiting : Waiting) (rows : List Row) → (installed_by layers who waiting rows).fresh ≡ layers.fresh }
    ensures legal { (layers : Layers) (waiting : Waiting) → StandForMap layers → layers.frozen ≡ Some waiting
        → installs_waiting (after (start_of layers.start) layers.journal) (Install waiting.number) ≡ true }
{}

/// The replies of the history are those of the dictionary that the layers hold, and a freeze answers the number that waits, or
/// else the journal's length. The installed and the waiting number are those of the history's shape.
pub fn replies_of_layers()
    ensures look { (layers : Layers) (run : List ℕ) → StandForMap layers
        → (answer (after (start_of layers.start) layers.journal) (Look run)).reply ≡ Rows (hits_of (map_in layers) run) }
    ensures learn { (layers : Layers) (key phrase : List ℕ) (orig peak : ℕ) → StandForMap layers
        → (answer (after (start_of layers.start) layers.journal) (Learn key phrase orig peak)).reply
        ≡ (learn (dictionary_in layers) key phrase orig peak).reply }
    ensures forget { (layers : Layers) (key phrase : List ℕ) → StandForMap layers
        → (answer (after (start_of layers.start) layers.journal) (Forget key phrase)).reply ≡ (forget (dictionary_in layers) key phrase).reply }
    ensures hide { (layers : Layers) (key phrase : List ℕ) → StandForMap layers
        → (answer (after (start_of layers.start) layers.journal) (Hide key phrase)).reply ≡ (hide (dictionary_in layers) key phrase).reply }
    ensures freeze { (layers : Layers) → StandForMap layers
        → (answer (after (start_of layers.start) layers.journal) Freeze).reply
        ≡ Frozen (unwrap_or (option_map (λ waiting. waiting.number) layers.frozen) (length layers.journal)) }
    ensures installed { (layers : Layers) → StandForMap layers
        → (after (start_of layers.start) layers.journal).shape.installed ≡ layers.installed }
    ensures waiting { (layers : Layers) → StandForMap layers
        → (after (start_of layers.start) layers.journal).shape.waiting ≡ option_map (λ waiting. waiting.number) layers.frozen }
{}
