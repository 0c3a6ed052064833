//! Known answers of the commands that read one input, and laws of all of them.

ghost use Rattle.std.specs.Prelude.{◌≡◌, ◌++◌, ℕ, [], ◌∷◌, Contains, Err, Ok, codes, take};
ghost use Rattle.chew_spec_outside.specs.Faults.{Rose};
ghost use Rattle.chew_spec_image.specs.Image.{image};
ghost use Rattle.chew_spec_image.specs.Sample.{five_rows_image, one_row_image};
ghost use Rattle.chew_spec_text.specs.DictionaryText.{Phrase};
ghost use Rattle.chew_spec_text.specs.Line.{with_line_feed};
ghost use Rattle.chew_spec_text.specs.Sample.{bytes_of};
ghost use Rattle.chew_spec_program.specs.Build.{IsBuild, image_of_text};
ghost use Rattle.chew_spec_program.specs.ImageRows.{IsCheck, IsDump, check_of, dump_of};
ghost use Rattle.chew_spec_program.specs.Reading.{Watched};
ghost use Rattle.chew_spec_program.specs.Refusal.{WrongImage, WrongSystem};
ghost use Rattle.chew_spec_program.specs.SampleRun.{five_text};
ghost use Rattle.chew_spec_program.specs.Writing.{Sunk};

/// The image of five lines is that of their rows in image order. An image is no text.
pub fn known_images()
    ensures five { image_of_text five_text ≡ Ok five_rows_image }
    ensures none { image_of_text [] ≡ Ok (image []) }
    ensures phrase { image_of_text (codes "\na") ≡ Err (WrongSystem (record { line = 2; cause = Phrase })) }
    ensures image { image_of_text one_row_image ≡ Err (WrongSystem (record { line = 1; cause = Phrase })) }
{}

/// The numbers of images, and the first faulty place of what is none.
pub fn known_checks()
    ensures none { check_of (image []) ≡ Ok (with_line_feed (codes "rows 0 nodes 1")) }
    ensures one { check_of one_row_image ≡ Ok (with_line_feed (codes "rows 1 nodes 3")) }
    ensures five { check_of five_rows_image ≡ Ok (with_line_feed (codes "rows 5 nodes 4")) }
    ensures empty { check_of [] ≡ Err (WrongImage 0) }
    ensures text { check_of five_text ≡ Err (WrongImage 0) }
    ensures shorter { check_of (take 93 one_row_image) ≡ Err (WrongImage 93) }
    ensures longer { check_of (one_row_image ++ 0 ∷ []) ≡ Err (WrongImage 94) }
{}

/// The lines of images' rows, in image order.
pub fn known_dumps()
    ensures none { dump_of (image []) ≡ Ok [] }
    ensures five { dump_of five_rows_image ≡ Ok (bytes_of "是 9000 ㄕˋ\n試 300 ㄕˋ\n測 100 ㄘㄜˋ\n策 200 ㄘㄜˋ\n測試 9318 ㄘㄜˋ ㄕˋ\n") }
    ensures empty { dump_of [] ≡ Err (WrongImage 0) }
    ensures shorter { dump_of (take 93 one_row_image) ≡ Err (WrongImage 93) }
{}

/// The statuses of these commands: 7 only where the source's count of faults rose, 8 only where the sink's did.
pub fn statuses_of_answers()
    ensures build { (from : Watched) (sink : Sunk) (status : ℕ) → IsBuild from sink status → Contains (0 ∷ (4 ∷ (7 ∷ (8 ∷ (10 ∷ []))))) status }
    ensures check { (from : Watched) (sink : Sunk) (status : ℕ) → IsCheck from sink status → Contains (0 ∷ (4 ∷ (7 ∷ (8 ∷ (10 ∷ []))))) status }
    ensures dump { (from : Watched) (sink : Sunk) (status : ℕ) → IsDump from sink status → Contains (0 ∷ (4 ∷ (7 ∷ (8 ∷ (10 ∷ []))))) status }
    ensures build_source { (from : Watched) (sink : Sunk) (status : ℕ) → IsBuild from sink status → status ≡ 7 → Rose from.faults_before from.faults_now }
    ensures check_source { (from : Watched) (sink : Sunk) (status : ℕ) → IsCheck from sink status → status ≡ 7 → Rose from.faults_before from.faults_now }
    ensures dump_source { (from : Watched) (sink : Sunk) (status : ℕ) → IsDump from sink status → status ≡ 7 → Rose from.faults_before from.faults_now }
    ensures build_sink { (from : Watched) (sink : Sunk) (status : ℕ) → IsBuild from sink status → status ≡ 8 → Rose sink.faults_before sink.faults_now }
    ensures check_sink { (from : Watched) (sink : Sunk) (status : ℕ) → IsCheck from sink status → status ≡ 8 → Rose sink.faults_before sink.faults_now }
    ensures dump_sink { (from : Watched) (sink : Sunk) (status : ℕ) → IsDump from sink status → status ≡ 8 → Rose sink.faults_before sink.faults_now }
{}
