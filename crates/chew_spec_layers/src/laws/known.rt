//! Known values of the definitions.

ghost use Rattle.std.specs.Prelude.{◌≡◌, [], ◌∷◌, true, false};
ghost use Rattle.chew_spec_dictionary.specs.Call.{Hide};
ghost use Rattle.chew_spec_dictionary.specs.Known.{attempt, be, by, ce_key, ce_shi_key, nothing_with_cap, plan, row_with, shi_key, survey, test};
ghost use Rattle.chew_spec_layers.specs.Mark.{Live, Grave, is_layer, put_mark};
ghost use Rattle.chew_spec_layers.specs.Known.{forgotten_twice, four_marks, marked};
ghost use Rattle.chew_spec_layers.specs.Overlay.{overlay};
ghost use Rattle.chew_spec_layers.specs.Touches.{touched};

/// A map of 測, 策 and 是 under a layer: 測 has a newer frequency, 策 a grave, 是 no mark, 試 is new, and the grave of a pair that
/// the map doesn't have, 測試, leaves no row. Marks out of order and a pair twice are no layer; and a newer mark of a pair stands
/// in place of the older one.
pub fn known_overlays()
    ensures layer { is_layer four_marks ≡ true }
    ensures map { overlay (row_with shi_key be 30 3 ∷ row_with ce_key survey 10 1 ∷ row_with ce_key plan 20 2 ∷ []) four_marks
        ≡ row_with shi_key be 30 3 ∷ row_with shi_key attempt 5 6 ∷ row_with ce_key survey 12 7 ∷ [] }
    ensures out_of_order { is_layer (marked ce_key plan Grave ∷ marked ce_key survey Grave ∷ []) ≡ false }
    ensures twice { is_layer (marked ce_key plan Grave ∷ marked ce_key plan (Live 1 1) ∷ []) ≡ false }
    ensures newer { put_mark (marked ce_key plan Grave) (marked ce_key survey (Live 1 1) ∷ marked ce_key plan (Live 2 2) ∷ [])
        ≡ marked ce_key survey (Live 1 1) ∷ marked ce_key plan Grave ∷ [] }
{}

/// Pairs that a history touched: 測 learnt; then 測試 learnt where there is room for one pair, so that it is Full; then 測
/// forgotten, and forgotten again. From the start 測 was touched and 測試 was not, the third entry touched 測, and the fourth nothing.
pub fn known_touches()
    ensures learnt { touched (nothing_with_cap 1) forgotten_twice 0 2 ce_key survey ≡ true }
    ensures full { touched (nothing_with_cap 1) forgotten_twice 0 4 ce_shi_key test ≡ false }
    ensures forgotten { touched (nothing_with_cap 1) forgotten_twice 2 3 ce_key survey ≡ true }
    ensures again { touched (nothing_with_cap 1) forgotten_twice 3 4 ce_key survey ≡ false }
    ensures before { touched (nothing_with_cap 1) forgotten_twice 1 2 ce_key survey ≡ false }
    ensures hidden { touched (nothing_with_cap 1) (by 1 (Hide ce_shi_key test) ∷ by 1 (Hide ce_shi_key test) ∷ []) 0 1 ce_shi_key test ≡ true }
    ensures hidden_again { touched (nothing_with_cap 1) (by 1 (Hide ce_shi_key test) ∷ by 1 (Hide ce_shi_key test) ∷ []) 1 2 ce_shi_key test ≡ false }
{}
