//! The words with which a line begins.

ghost use Rattle.std.specs.Prelude.{◌≡◌};
ghost use Rattle.cmm_script.specs.inside.Keywords.{spelling_of, keyword_of};

/// The first word of a line.
#[derive(Clone, Copy)]
pub enum Keyword {
    At,
    Other,
    List,
    Youngest,
    Next,
    Desc,
    Seek,
    Var,
    Set,
    Poke,
    Return,
    Unwind,
    Cut,
    Stop,
}

const KEYWORDS: [Keyword; 14] = [
    Keyword::At,
    Keyword::Other,
    Keyword::List,
    Keyword::Youngest,
    Keyword::Next,
    Keyword::Desc,
    Keyword::Seek,
    Keyword::Var,
    Keyword::Set,
    Keyword::Poke,
    Keyword::Return,
    Keyword::Unwind,
    Keyword::Cut,
    Keyword::Stop,
];

impl Keyword {
    /// How it is written.
    fn spelling(self) -> &'static [u8]
        ensures { result.now ≡ spelling_of self }
    {
        match self {
            Keyword::At => b"at",
            Keyword::Other => b"other",
            Keyword::List => b"list",
            Keyword::Youngest => b"youngest",
            Keyword::Next => b"next",
            Keyword::Desc => b"desc",
            Keyword::Seek => b"seek",
            Keyword::Var => b"var",
            Keyword::Set => b"set",
            Keyword::Poke => b"poke",
            Keyword::Return => b"return",
            Keyword::Unwind => b"unwind",
            Keyword::Cut => b"cut",
            Keyword::Stop => b"stop",
        }
    }

    /// The keyword that a word is.
    #[tactic(auto, unfolding(crate::specs::inside::Keywords::keywords))]
    pub fn of(word: &[u8]) -> Option<Keyword>
        ensures { result ≡ keyword_of word.now }
    {
        KEYWORDS
            .iter()
            .copied()
            .find(|keyword| keyword.spelling() == word)
    }
}
