//! The word that says what is asked for.

ghost use Rattle.std.specs.Prelude.{◌≡◌};
ghost use Rattle.cmm_command.specs.FirstWords.{spelling_of, first_word_of};

/// What is asked for.
#[derive(Clone, Copy)]
pub enum FirstWord {
    Build,
    Run,
    Exec,
    Walk,
    Generate,
    Elf,
    Migrate,
    Segments,
}

const FIRST_WORDS: [FirstWord; 8] = [
    FirstWord::Build,
    FirstWord::Run,
    FirstWord::Exec,
    FirstWord::Walk,
    FirstWord::Generate,
    FirstWord::Elf,
    FirstWord::Migrate,
    FirstWord::Segments,
];

impl FirstWord {
    /// How it is written.
    pub fn spelling(self) -> &'static str
        ensures { result.now ≡ spelling_of self }
    {
        match self {
            FirstWord::Build => "build",
            FirstWord::Run => "run",
            FirstWord::Exec => "exec",
            FirstWord::Walk => "walk",
            FirstWord::Generate => "gen",
            FirstWord::Elf => "elf",
            FirstWord::Migrate => "migrate",
            FirstWord::Segments => "segments",
        }
    }

    /// The first word that a word is.
    #[tactic(auto, unfolding(crate::specs::FirstWords::first_words))]
    pub fn of(word: &str) -> Option<FirstWord>
        ensures { result ≡ first_word_of word.now }
    {
        FIRST_WORDS
            .iter()
            .copied()
            .find(|first| first.spelling() == word)
    }
}
