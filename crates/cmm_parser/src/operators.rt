//! Which words and symbols are widths and operators, and how tightly an operator binds.

ghost use Rattle.std.specs.Prelude.{◌≡◌};
ghost use Rattle.cmm_lexer.specs.Spellings.{keyword_number, symbol_number};
ghost use Rattle.cmm_grammar.specs.ExpressionGrammar.{infix_level, left_level as left_level_of, level_of as level_of_form};
ghost use Rattle.cmm_grammar.specs.ExpressionReading.{infix_in, prefix_in, width_in};

use cmm_ast::{ExprForm, Infix, Prefix};
use cmm_lexer::{Keyword, Symbol};
use cmm_words::Width;

/// How tightly an operator before its operand binds, and what has no operator.
pub(crate) const UNARY_LEVEL: u8 = 7;

/// The width that a reserved word is.
pub(crate) fn width_of(word: Keyword) -> Option<Width>
    ensures { result ≡ width_in (keyword_number word) }
{
    match word {
        Keyword::Bits8 => Some(Width::W8),
        Keyword::Bits16 => Some(Width::W16),
        Keyword::Bits32 => Some(Width::W32),
        Keyword::Bits64 => Some(Width::W64),
        _ => None,
    }
}

/// The operator before an operand that a symbol is.
pub(crate) fn prefix_of(symbol: Symbol) -> Option<Prefix>
    ensures { result ≡ prefix_in (symbol_number symbol) }
{
    match symbol {
        Symbol::Minus => Some(Prefix::Negate),
        Symbol::Tilde => Some(Prefix::Complement),
        _ => None,
    }
}

/// The operator between two operands that a symbol is.
pub(crate) fn infix_of(symbol: Symbol) -> Option<Infix>
    ensures { result ≡ infix_in (symbol_number symbol) }
{
    match symbol {
        Symbol::Equal => Some(Infix::Eq),
        Symbol::NotEqual => Some(Infix::Ne),
        Symbol::Less => Some(Infix::Lt),
        Symbol::LessEqual => Some(Infix::Le),
        Symbol::Greater => Some(Infix::Gt),
        Symbol::GreaterEqual => Some(Infix::Ge),
        Symbol::Bar => Some(Infix::Or),
        Symbol::Caret => Some(Infix::Xor),
        Symbol::Ampersand => Some(Infix::And),
        Symbol::ShiftLeft => Some(Infix::Shl),
        Symbol::ShiftRight => Some(Infix::Shr),
        Symbol::Plus => Some(Infix::Add),
        Symbol::Minus => Some(Infix::Sub),
        Symbol::Star => Some(Infix::Mul),
        Symbol::Slash => Some(Infix::Div),
        Symbol::Percent => Some(Infix::Mod),
        _ => None,
    }
}

/// How tightly an operator binds: a comparison least, at 0.
pub(crate) fn level_of(operator: Infix) -> u8
    ensures { result ≡ infix_level operator }
{
    match operator {
        Infix::Eq | Infix::Ne | Infix::Lt | Infix::Le | Infix::Gt | Infix::Ge => 0,
        Infix::Or => 1,
        Infix::Xor => 2,
        Infix::And => 3,
        Infix::Shl | Infix::Shr => 4,
        Infix::Add | Infix::Sub => 5,
        Infix::Mul | Infix::Div | Infix::Mod => 6,
    }
}

/// How tightly the left operand of an operator has to bind: comparisons do not group.
pub(crate) fn left_level(operator: Infix) -> u8
    ensures { result ≡ left_level_of operator }
{
    level_of(operator).max(1)
}

/// How tightly an expression binds.
pub(crate) fn form_level(form: &ExprForm) -> u8
    ensures { result ≡ level_of_form form.now }
{
    match form {
        ExprForm::Infix { operator, .. } => level_of(*operator),
        _ => UNARY_LEVEL,
    }
}
