//! The symbols (C-- Language Specification 2.0, lexical form).

ghost use Rattle.std.specs.Prelude.{◌≡◌, ◌≢◌, ◌<◌, [], ◌∷◌, slice_index_or, option_map, MatchOption};
ghost use Rattle.cmm_lexer.specs.Spellings.{symbol_number, number_of, symbols};

/// A symbol.
#[derive(Clone, Copy, PartialEq, Eq)]
pub enum Symbol {
    OpenBrace,
    CloseBrace,
    Open,
    Close,
    OpenSquare,
    CloseSquare,
    Comma,
    Semicolon,
    Colon,
    Colons,
    Assign,
    Equal,
    NotEqual,
    Less,
    LessEqual,
    Greater,
    GreaterEqual,
    Plus,
    Minus,
    Star,
    Slash,
    Percent,
    Ampersand,
    Bar,
    Caret,
    Tilde,
    ShiftLeft,
    ShiftRight,
    Range,
}

/// The symbols, in the order of their numbers.
const SYMBOLS: [Symbol; 29] = [
    Symbol::OpenBrace,
    Symbol::CloseBrace,
    Symbol::Open,
    Symbol::Close,
    Symbol::OpenSquare,
    Symbol::CloseSquare,
    Symbol::Comma,
    Symbol::Semicolon,
    Symbol::Colon,
    Symbol::Colons,
    Symbol::Assign,
    Symbol::Equal,
    Symbol::NotEqual,
    Symbol::Less,
    Symbol::LessEqual,
    Symbol::Greater,
    Symbol::GreaterEqual,
    Symbol::Plus,
    Symbol::Minus,
    Symbol::Star,
    Symbol::Slash,
    Symbol::Percent,
    Symbol::Ampersand,
    Symbol::Bar,
    Symbol::Caret,
    Symbol::Tilde,
    Symbol::ShiftLeft,
    Symbol::ShiftRight,
    Symbol::Range,
];

impl Symbol {
    /// Its number among the symbols, from 0.
    pub fn number(self) -> u8
        ensures number { result ≡ symbol_number self }
        ensures below { result < 29 }
    {
        self as u8
    }

    /// The symbol with this number, where there is one.
    pub fn of_number(number: u8) -> Option<Symbol>
        ensures { MatchOption result ((symbol : Symbol) → symbol_number symbol ≢ number) (λ symbol. symbol_number symbol ≡ number) }
    {
        let place = usize::from(number);
        if place < SYMBOLS.len() {
            Some(SYMBOLS[place])
        } else {
            None
        }
    }

    /// The symbol with this spelling, where there is one.
    pub fn of_spelling(spelling: &[u8]) -> Option<Symbol>
        ensures { option_map symbol_number result ≡ number_of symbols spelling.now }
    {
        match spelling {
            [byte] => Symbol::of_byte(*byte),
            [first, second] => Symbol::of_pair(*first, *second),
            _ => None,
        }
    }

    /// The symbol of one byte.
    #[tactic(auto, unfolding(crate::specs::Spellings::symbols, crate::specs::Spellings::number_of))]
    fn of_byte(byte: u8) -> Option<Symbol>
        ensures { option_map symbol_number result ≡ number_of symbols (byte ∷ []) }
    {
        match byte {
            b'{' => Some(Symbol::OpenBrace),
            b'}' => Some(Symbol::CloseBrace),
            b'(' => Some(Symbol::Open),
            b')' => Some(Symbol::Close),
            b'[' => Some(Symbol::OpenSquare),
            b']' => Some(Symbol::CloseSquare),
            b',' => Some(Symbol::Comma),
            b';' => Some(Symbol::Semicolon),
            b':' => Some(Symbol::Colon),
            b'=' => Some(Symbol::Assign),
            b'<' => Some(Symbol::Less),
            b'>' => Some(Symbol::Greater),
            b'+' => Some(Symbol::Plus),
            b'-' => Some(Symbol::Minus),
            b'*' => Some(Symbol::Star),
            b'/' => Some(Symbol::Slash),
            b'%' => Some(Symbol::Percent),
            b'&' => Some(Symbol::Ampersand),
            b'|' => Some(Symbol::Bar),
            b'^' => Some(Symbol::Caret),
            b'~' => Some(Symbol::Tilde),
            _ => None,
        }
    }

    /// The symbol of two bytes.
    #[tactic(auto, unfolding(crate::specs::Spellings::symbols, crate::specs::Spellings::number_of))]
    fn of_pair(first: u8, second: u8) -> Option<Symbol>
        ensures { option_map symbol_number result ≡ number_of symbols (first ∷ second ∷ []) }
    {
        match (first, second) {
            (b':', b':') => Some(Symbol::Colons),
            (b'=', b'=') => Some(Symbol::Equal),
            (b'!', b'=') => Some(Symbol::NotEqual),
            (b'<', b'=') => Some(Symbol::LessEqual),
            (b'>', b'=') => Some(Symbol::GreaterEqual),
            (b'<', b'<') => Some(Symbol::ShiftLeft),
            (b'>', b'>') => Some(Symbol::ShiftRight),
            (b'.', b'.') => Some(Symbol::Range),
            _ => None,
        }
    }

    /// How it is spelled.
    #[tactic(auto, unfolding(crate::specs::Spellings::symbols))]
    pub fn spelling(self) -> &'static str
        ensures { result.now ≡ slice_index_or symbols (symbol_number self) [] }
    {
        match self {
            Symbol::OpenBrace => "{",
            Symbol::CloseBrace => "}",
            Symbol::Open => "(",
            Symbol::Close => ")",
            Symbol::OpenSquare => "[",
            Symbol::CloseSquare => "]",
            Symbol::Comma => ",",
            Symbol::Semicolon => ";",
            Symbol::Colon => ":",
            Symbol::Colons => "::",
            Symbol::Assign => "=",
            Symbol::Equal => "==",
            Symbol::NotEqual => "!=",
            Symbol::Less => "<",
            Symbol::LessEqual => "<=",
            Symbol::Greater => ">",
            Symbol::GreaterEqual => ">=",
            Symbol::Plus => "+",
            Symbol::Minus => "-",
            Symbol::Star => "*",
            Symbol::Slash => "/",
            Symbol::Percent => "%",
            Symbol::Ampersand => "&",
            Symbol::Bar => "|",
            Symbol::Caret => "^",
            Symbol::Tilde => "~",
            Symbol::ShiftLeft => "<<",
            Symbol::ShiftRight => ">>",
            Symbol::Range => "..",
        }
    }
}
