//! Known openings of a run.

ghost use Rattle.std.specs.Prelude.{◌≡◌, [], ◌∷◌, Some, None, Ok, Err, codes, false, flat_map, map, take, true};
ghost use Rattle.chew_spec_layout.specs.Layout.{Hsu, Standard};
ghost use Rattle.chew_spec_dictionary.specs.FiveRows.{ce4, row_at_start, shi4};
ghost use Rattle.chew_spec_dictionary.specs.History.{start_of};
ghost use Rattle.chew_spec_text.specs.DictionaryText.{Phrase};
ghost use Rattle.chew_spec_text.specs.KeyStroke.{Char};
ghost use Rattle.chew_spec_text.specs.Line.{with_line_feed};
ghost use Rattle.chew_spec_text.specs.Sample.{bytes_of, five_lines};
ghost use Rattle.chew_spec_text.specs.Script.{Form};
ghost use Rattle.chew_spec_image.specs.Sample.{one_row, one_row_image};
ghost use Rattle.chew_spec_settings.specs.Fault.{Range, Unknown};
ghost use Rattle.chew_spec_settings.specs.Name.{Buffer, Other};
ghost use Rattle.chew_spec_slots.specs.Sample.{life_two, one_row_plain_slot};
ghost use Rattle.chew_spec_program.specs.Opening.{opening};
ghost use Rattle.chew_spec_program.specs.Refusal.{DiskFailed, SlotDamaged, SourceFailed, WrongImage, WrongScript, WrongSettings, WrongSystem, WrongWords};
ghost use Rattle.chew_spec_program.specs.Sample.{empty_slots, run_words, words_with_settings, words_with_trace};

/// Wrong words come before faulty settings, a faulty system and failed sources; a failed or a faulty system comes before a faulty
/// script and before a failed one; and these before a failed disk and damaged slots.
pub fn refusals_in_order()
    ensures words { opening (codes "walk" ∷ []) (Some (codes "a")) (Some (codes "a")) None None ≡ Err WrongWords }
    ensures words_first { opening [] None None None None ≡ Err WrongWords }
    ensures failed_system { opening run_words (Some []) None (Some (codes "1")) None ≡ Err SourceFailed }
    ensures system { opening run_words (Some []) (Some (codes "\na")) (Some (codes "1")) None ≡ Err (WrongSystem (record { line = 2; cause = Phrase })) }
    ensures system_first { opening run_words (Some []) (Some (codes "a")) None None ≡ Err (WrongSystem (record { line = 1; cause = Phrase })) }
    ensures script { opening run_words (Some []) (Some (flat_map with_line_feed five_lines)) (Some (codes "1:h\n1")) None
        ≡ Err (WrongScript (record { line = 2; cause = Form })) }
    ensures failed_script { opening run_words (Some []) (Some (flat_map with_line_feed five_lines)) None
        (Some (record { zero = take 60 one_row_plain_slot; one = [] })) ≡ Err SourceFailed }
    ensures failed_disk { opening run_words None (Some []) (Some []) None ≡ Err DiskFailed }
{}

/// Behind the words the settings come first, where the words name them; where they don't, no text of settings matters.
pub fn settings_in_order()
    ensures words { opening (codes "walk" ∷ []) (Some (codes "buffer = 40")) (Some []) (Some []) (Some empty_slots) ≡ Err WrongWords }
    ensures failed { opening words_with_settings None (Some (codes "a")) (Some (codes "1")) None ≡ Err SourceFailed }
    ensures system { opening words_with_settings (Some (codes "buffer = 40")) (Some (codes "a")) None None
        ≡ Err (WrongSettings (record { key = Buffer; cause = Range })) }
    ensures failed_system { opening words_with_settings (Some (codes "bufer = 4")) None (Some []) None
        ≡ Err (WrongSettings (record { key = Other; cause = Unknown })) }
    ensures behind { opening words_with_settings (Some (codes "buffer = 39")) (Some (codes "a")) None None
        ≡ Err (WrongSystem (record { line = 1; cause = Phrase })) }
    ensures script { opening words_with_settings (Some []) (Some []) (Some (codes "1")) None ≡ Err (WrongScript (record { line = 1; cause = Form })) }
    ensures unnamed { opening run_words (Some (codes "buffer = 40")) (Some []) (Some (codes "1")) None ≡ Err (WrongScript (record { line = 1; cause = Form })) }
{}

/// A system that begins as an image does is read as one, and any other as a text. A byte less or more than an image's is a fault
/// of its length.
pub fn known_images()
    ensures shorter { opening run_words None (Some (take 93 one_row_image)) None None ≡ Err (WrongImage 93) }
    ensures header { opening run_words None (Some (take 8 one_row_image)) None None ≡ Err (WrongImage 8) }
    ensures cut { opening run_words None (Some (take 7 one_row_image)) None None ≡ Err (WrongSystem (record { line = 1; cause = Phrase })) }
    ensures rows { opening run_words None (Some one_row_image) (Some []) (Some empty_slots) ≡ Ok (record {
      basis = record {
        system = one_row ∷ [];
        settings = record { layout = Standard; buffer = 10; page = 10; selection = codes "1234567890"; escape_clears = false; learn = true; cap = 65_536 };
        start = start_of (record { pairs = []; life = 0; cap = 65_536 });
      };
      script = record { contexts = []; rounds = 0 };
      seq = 0;
    }) }
{}

/// A run stands on the settings that it names, and its dictionary takes as many pairs as they say.
pub fn known_settings()
    ensures named { opening words_with_settings (Some (codes "cap = 2\nlayout = 'hsu'\nlearn = false")) (Some []) (Some []) (Some empty_slots) ≡ Ok (record {
      basis = record {
        system = [];
        settings = record { layout = Hsu; buffer = 10; page = 10; selection = codes "1234567890"; escape_clears = false; learn = false; cap = 2 };
        start = start_of (record { pairs = []; life = 0; cap = 2 });
      };
      script = record { contexts = []; rounds = 0 };
      seq = 0;
    }) }
    ensures unnamed { opening run_words (Some (codes "cap = 2")) (Some []) (Some []) (Some empty_slots)
        ≡ opening run_words None (Some []) (Some []) (Some empty_slots) }
{}

/// Of good texts, the rows in image order, the standard settings, a dictionary without a pair, the keys of the script's
/// contexts by their numbers, and its rounds. The trace changes nothing of them.
pub fn known_inputs()
    ensures five { opening run_words (Some []) (Some (flat_map with_line_feed five_lines)) (Some (codes "2:hk\nround\n1:4")) (Some empty_slots) ≡ Ok (record {
      basis = record {
        system = row_at_start (shi4 ∷ []) (bytes_of "是") 9000
            ∷ (row_at_start (shi4 ∷ []) (bytes_of "試") 300
            ∷ (row_at_start (ce4 ∷ []) (bytes_of "測") 100
            ∷ (row_at_start (ce4 ∷ []) (bytes_of "策") 200
            ∷ (row_at_start (ce4 ∷ (shi4 ∷ [])) (bytes_of "測試") 9318 ∷ []))));
        settings = record { layout = Standard; buffer = 10; page = 10; selection = codes "1234567890"; escape_clears = false; learn = true; cap = 65_536 };
        start = start_of (record { pairs = []; life = 0; cap = 65_536 });
      };
      script = record { contexts = map Char (codes "4") ∷ (map Char (codes "hk") ∷ []); rounds = 1 };
      seq = 0;
    }) }
    ensures empty { opening run_words None (Some []) (Some []) (Some empty_slots) ≡ Ok (record {
      basis = record {
        system = [];
        settings = record { layout = Standard; buffer = 10; page = 10; selection = codes "1234567890"; escape_clears = false; learn = true; cap = 65_536 };
        start = start_of (record { pairs = []; life = 0; cap = 65_536 });
      };
      script = record { contexts = []; rounds = 0 };
      seq = 0;
    }) }
    ensures traced { opening words_with_trace None (Some []) (Some []) (Some empty_slots) ≡ opening run_words None (Some []) (Some []) (Some empty_slots) }
{}

/// The map and the life of the slot that counts are those at the start, with the cap of the settings; the number is the slot's. Of
/// two damaged slots the first is refused.
pub fn known_starts()
    ensures one { opening run_words None (Some []) (Some []) (Some (record { zero = one_row_plain_slot; one = [] })) ≡ Ok (record {
      basis = record {
        system = [];
        settings = record { layout = Standard; buffer = 10; page = 10; selection = codes "1234567890"; escape_clears = false; learn = true; cap = 65_536 };
        start = start_of (record { pairs = one_row ∷ []; life = 1; cap = 65_536 });
      };
      script = record { contexts = []; rounds = 0 };
      seq = 1;
    }) }
    ensures newer { opening words_with_settings (Some (codes "cap = 2")) (Some []) (Some [])
        (Some (record { zero = one_row_plain_slot; one = life_two 7 })) ≡ Ok (record {
          basis = record {
            system = [];
            settings = record { layout = Standard; buffer = 10; page = 10; selection = codes "1234567890"; escape_clears = false; learn = true; cap = 2 };
            start = start_of (record { pairs = one_row ∷ []; life = 2; cap = 2 });
          };
          script = record { contexts = []; rounds = 0 };
          seq = 7;
        }) }
    ensures damaged { opening run_words None (Some []) (Some []) (Some (record { zero = one_row_plain_slot; one = take 60 one_row_plain_slot }))
        ≡ Err (SlotDamaged 1 60) }
    ensures first { opening run_words None (Some []) (Some []) (Some (record { zero = take 50 one_row_plain_slot; one = take 60 one_row_plain_slot }))
        ≡ Err (SlotDamaged 0 50) }
{}
