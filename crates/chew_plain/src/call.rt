ghost use Rattle.std.specs.Prelude.{◌≡◌};
ghost use Rattle.chew_plain.specs.Call.{call_of};

use chew_syllable::{Key, Phrase, Run};

/// What the user's dictionary is asked for.
#[derive(Debug, Drop)]
pub enum Call {
    /// All rows of all intervals of 1 to 11 syllables of this run.
    Look(Run),
    /// To learn a phrase of as many characters as its key has syllables.
    Learn {
        /// What the phrase is held under.
        key: Key,
        /// The phrase that was committed.
        phrase: Phrase,
        /// The system's frequency of the pair, or 0; at most `peak`.
        orig: u32,
        /// The system's greatest frequency of the key, or 0; at most 99,999,999.
        peak: u32,
    },
    /// To forget a phrase of as many characters as its key has syllables.
    Forget {
        /// What the phrase is held under.
        key: Key,
        /// The phrase that goes.
        phrase: Phrase,
    },
    /// To hide a phrase of as many characters as its key has syllables, of which there are at least two.
    Hide {
        /// What the phrase is held under.
        key: Key,
        /// The phrase that is shown no more.
        phrase: Phrase,
    },
    /// For a snapshot, which waits from then on; where one waits already, that one.
    Freeze,
    /// To have the waiting snapshot, which has this number, installed.
    Install(u64),
}

impl Call {
    /// The same call once more. It takes no memory.
    pub fn copy(&self) -> Call
        ensures { call_of result ≡ call_of self.now }
    {
        match self {
            Call::Look(run) => Call::Look(run.copy()),
            Call::Learn {
                key,
                phrase,
                orig,
                peak,
            } => Call::Learn {
                key: key.copy(),
                phrase: phrase.copy(),
                orig: *orig,
                peak: *peak,
            },
            Call::Forget { key, phrase } => Call::Forget {
                key: key.copy(),
                phrase: phrase.copy(),
            },
            Call::Hide { key, phrase } => Call::Hide {
                key: key.copy(),
                phrase: phrase.copy(),
            },
            Call::Freeze => Call::Freeze,
            Call::Install(number) => Call::Install(*number),
        }
    }
}
