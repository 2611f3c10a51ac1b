//! The units that a line divides by tabs.

use cmm_ast::Unit;
use cmm_lexer::{LexFault, lex};
use cmm_parser::{SyntaxFault, parse};
use std::alloc::{AllocError, AllocFailed, Global};

/// A text of a case is no unit, or memory is out.
pub(crate) struct NoUnit;

/// The units that tabs divide.
pub(crate) fn units_of(alloc: Global, line: &str) -> Result<Vec<Unit>, NoUnit> {
    let mut units = Vec::new(alloc);
    for text in line.split('\t') {
        units.push(unit_of(alloc, text)?)?;
    }
    Ok(units)
}

fn unit_of(alloc: Global, text: &str) -> Result<Unit, NoUnit> {
    let tokens = lex(alloc, text.as_bytes())?;
    if tokens.list.len() >= 0x1_0000_0000 {
        return Err(NoUnit);
    }
    Ok(parse(alloc, &tokens)?)
}

impl From<AllocError> for NoUnit {
    fn from(_: AllocError) -> NoUnit {
        NoUnit
    }
}

impl<T: Drop> From<AllocFailed<T>> for NoUnit {
    fn from(_: AllocFailed<T>) -> NoUnit {
        NoUnit
    }
}

impl From<LexFault> for NoUnit {
    fn from(_: LexFault) -> NoUnit {
        NoUnit
    }
}

impl From<SyntaxFault> for NoUnit {
    fn from(_: SyntaxFault) -> NoUnit {
        NoUnit
    }
}
