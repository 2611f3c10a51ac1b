//! The reserved words (C-- Language Specification 2.0, lexical form).

ghost use Rattle.std.specs.Prelude.{◌≡◌, ◌≢◌, ◌<◌, ◌-◌, [], slice_index_or, option_map, MatchOption};
ghost use Rattle.cmm_lexer.specs.Spellings.{keyword_number, number_of, reserved};

/// A reserved word, which is no name.
#[derive(Clone, Copy, PartialEq, Eq)]
pub enum Keyword {
    Aborts,
    Align,
    Aligned,
    Also,
    As,
    Big,
    Bits8,
    Bits16,
    Bits32,
    Bits64,
    Bool,
    Byteorder,
    Case,
    Const,
    Continuation,
    Cut,
    Cuts,
    Default,
    Else,
    Export,
    Float,
    Foreign,
    Goto,
    If,
    Import,
    In,
    Invariant,
    Jump,
    Little,
    Memsize,
    Never,
    Pointersize,
    Pragma,
    Reads,
    Register,
    Return,
    Returns,
    Section,
    Span,
    Stackdata,
    String16,
    Switch,
    Target,
    To,
    Typedef,
    Unicode,
    Unwinds,
    Wordsize,
    Writes,
}

/// The reserved words, in the order of their numbers.
const KEYWORDS: [Keyword; 49] = [
    Keyword::Aborts,
    Keyword::Align,
    Keyword::Aligned,
    Keyword::Also,
    Keyword::As,
    Keyword::Big,
    Keyword::Bits8,
    Keyword::Bits16,
    Keyword::Bits32,
    Keyword::Bits64,
    Keyword::Bool,
    Keyword::Byteorder,
    Keyword::Case,
    Keyword::Const,
    Keyword::Continuation,
    Keyword::Cut,
    Keyword::Cuts,
    Keyword::Default,
    Keyword::Else,
    Keyword::Export,
    Keyword::Float,
    Keyword::Foreign,
    Keyword::Goto,
    Keyword::If,
    Keyword::Import,
    Keyword::In,
    Keyword::Invariant,
    Keyword::Jump,
    Keyword::Little,
    Keyword::Memsize,
    Keyword::Never,
    Keyword::Pointersize,
    Keyword::Pragma,
    Keyword::Reads,
    Keyword::Register,
    Keyword::Return,
    Keyword::Returns,
    Keyword::Section,
    Keyword::Span,
    Keyword::Stackdata,
    Keyword::String16,
    Keyword::Switch,
    Keyword::Target,
    Keyword::To,
    Keyword::Typedef,
    Keyword::Unicode,
    Keyword::Unwinds,
    Keyword::Wordsize,
    Keyword::Writes,
];

/// For each letter from `a` on the reserved words that begin with it, by their numbers: the first, and the end.
const BEGINNINGS: [(usize, usize); 26] = [
    (0, 5),
    (5, 12),
    (12, 17),
    (17, 18),
    (18, 20),
    (20, 22),
    (22, 23),
    (0, 0),
    (23, 27),
    (27, 28),
    (0, 0),
    (28, 29),
    (29, 30),
    (30, 31),
    (0, 0),
    (31, 33),
    (0, 0),
    (33, 37),
    (37, 42),
    (42, 45),
    (45, 47),
    (0, 0),
    (47, 49),
    (0, 0),
    (0, 0),
    (0, 0),
];

/// The reserved words of which some may begin with a byte, by their numbers: the first, and the end.
fn beginning_with(byte: u8) -> (usize, usize)
    ensures { result ≡ slice_index_or BEGINNINGS (byte - 97) (0, 0) }
{
    let place = usize::from(byte.saturating_sub(b'a'));
    if place < BEGINNINGS.len() {
        BEGINNINGS[place]
    } else {
        (0, 0)
    }
}

impl Keyword {
    /// Its number among the reserved words, from 0.
    pub fn number(self) -> u8
        ensures number { result ≡ keyword_number self }
        ensures below { result < 49 }
    {
        self as u8
    }

    /// The reserved word with this number, where there is one.
    pub fn of_number(number: u8) -> Option<Keyword>
        ensures { MatchOption result ((keyword : Keyword) → keyword_number keyword ≢ number) (λ keyword. keyword_number keyword ≡ number) }
    {
        let place = usize::from(number);
        if place < KEYWORDS.len() {
            Some(KEYWORDS[place])
        } else {
            None
        }
    }

    /// The reserved word with this spelling, where there is one.
    pub fn of_spelling(spelling: &[u8]) -> Option<Keyword>
        ensures { option_map keyword_number result ≡ number_of reserved spelling.now }
    {
        let (first, end) = beginning_with(*spelling.first()?);
        for place in first..end {
            let keyword = KEYWORDS[place];
            if spelling == keyword.spelling().as_bytes() {
                return Some(keyword);
            }
        }
        None
    }

    /// How it is spelled.
    #[tactic(auto, unfolding(crate::specs::Spellings::reserved))]
    pub fn spelling(self) -> &'static str
        ensures { result.now ≡ slice_index_or reserved (keyword_number self) [] }
    {
        match self {
            Keyword::Aborts => "aborts",
            Keyword::Align => "align",
            Keyword::Aligned => "aligned",
            Keyword::Also => "also",
            Keyword::As => "as",
            Keyword::Big => "big",
            Keyword::Bits8 => "bits8",
            Keyword::Bits16 => "bits16",
            Keyword::Bits32 => "bits32",
            Keyword::Bits64 => "bits64",
            Keyword::Bool => "bool",
            Keyword::Byteorder => "byteorder",
            Keyword::Case => "case",
            Keyword::Const => "const",
            Keyword::Continuation => "continuation",
            Keyword::Cut => "cut",
            Keyword::Cuts => "cuts",
            Keyword::Default => "default",
            Keyword::Else => "else",
            Keyword::Export => "export",
            Keyword::Float => "float",
            Keyword::Foreign => "foreign",
            Keyword::Goto => "goto",
            Keyword::If => "if",
            Keyword::Import => "import",
            Keyword::In => "in",
            Keyword::Invariant => "invariant",
            Keyword::Jump => "jump",
            Keyword::Little => "little",
            Keyword::Memsize => "memsize",
            Keyword::Never => "never",
            Keyword::Pointersize => "pointersize",
            Keyword::Pragma => "pragma",
            Keyword::Reads => "reads",
            Keyword::Register => "register",
            Keyword::Return => "return",
            Keyword::Returns => "returns",
            Keyword::Section => "section",
            Keyword::Span => "span",
            Keyword::Stackdata => "stackdata",
            Keyword::String16 => "string16",
            Keyword::Switch => "switch",
            Keyword::Target => "target",
            Keyword::To => "to",
            Keyword::Typedef => "typedef",
            Keyword::Unicode => "unicode",
            Keyword::Unwinds => "unwinds",
            Keyword::Wordsize => "wordsize",
            Keyword::Writes => "writes",
        }
    }
}
