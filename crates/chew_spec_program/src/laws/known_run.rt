//! A known run over the five rows, and ends that it doesn't have.

ghost use Rattle.std.specs.Prelude.{[], ◌∷◌, ◌++◌};
ghost use Rattle.chew_spec_dictionary.specs.FiveRows.{ce4};
ghost use Rattle.chew_spec_rounds.specs.Round.{DiskFault, Saved};
ghost use Rattle.chew_spec_program.specs.Run.{IsRun};
ghost use Rattle.chew_spec_program.specs.Sample.{look_by, run_words, words_with_trace};
ghost use Rattle.chew_spec_program.specs.SampleRun.{before_enter, five_calls, five_ended, five_journal, five_looks, five_outside, five_output, five_rounds, five_trace, round_text, with_status, without_round};

/// Two syllables and Enter over the five rows, without the trace and with it. A disk that holds nothing then holds 測試.
pub fn known_run()
    ensures plain { IsRun run_words (five_outside five_output) (five_ended five_journal five_rounds) }
    ensures traced { IsRun words_with_trace (five_outside (five_output ++ five_trace)) (five_ended five_journal five_rounds) }
{}

/// Without its last line, without what Enter learns, with a call more, and with a byte more it is no run.
pub fn wrong_runs()
    ensures line_less { IsRun run_words (five_outside (before_enter ++ round_text)) (five_ended five_journal five_rounds) → ⊥ }
    ensures learn_less { IsRun run_words (five_outside five_output) (five_ended five_looks five_rounds) → ⊥ }
    ensures call_more { IsRun run_words (five_outside five_output) (five_ended (five_journal ++ look_by 1 (ce4 ∷ []) ∷ []) five_rounds) → ⊥ }
    ensures byte_more { IsRun run_words (five_outside (five_output ++ 10 ∷ [])) (five_ended five_journal five_rounds) → ⊥ }
    ensures no_round { IsRun run_words (five_outside without_round) (five_ended five_calls []) → ⊥ }
    ensures round_line_less { IsRun run_words (five_outside without_round) (five_ended five_journal five_rounds) → ⊥ }
    ensures status { IsRun run_words (five_outside five_output) (with_status 9 (five_ended five_journal five_rounds)) → ⊥ }
    ensures untraced { IsRun words_with_trace (five_outside five_output) (five_ended five_journal five_rounds) → ⊥ }
    ensures trace_unasked { IsRun run_words (five_outside (five_output ++ five_trace)) (five_ended five_journal five_rounds) → ⊥ }
{}
