//! What the arms of a switch are for, and the values that it is over.

ghost use Rattle.std.specs.Prelude.{◌≡◌, ◌-◌, ◌<◌, ◌≤◌, length, OnOk};
ghost use Rattle.cmm_grammar.specs.Reading.{next, passes};
ghost use Rattle.cmm_grammar.specs.ExpressionReading.{begins_expression};
ghost use Rattle.cmm_grammar.specs.PartReading as parts;
ghost use Rattle.cmm_grammar.specs.StatementReading as statements;
ghost use Rattle.cmm_parser.specs.inside.Parsing.{Takes, MayTake, point_of};

use crate::fault::Stop;
use crate::list::Listed;
use crate::parser::Parser;
use cmm_ast::{Case, Expr, Range, Span};
use cmm_lexer::{Keyword, Symbol};

impl Listed for Range {
    ghost reads = { λ fuel. parts.range fuel };

    ghost begins = { begins_expression };

    fn is_next(parser: &Parser<'_>) -> bool {
        parser.is_expression()
    }

    fn parse(parser: &mut Parser<'_>) -> Result<Range, Stop> {
        let from = parser.whole()?;
        let to = parser.range_end()?;
        Ok(Range { from, to })
    }
}

impl Parser<'_> {
    /// The end of a range after its symbol, where there is one.
    fn range_end(&mut self) -> Result<Option<Expr>, Stop>
        ensures { MayTake (λ fuel. parts.range_end fuel) (point_of self.old) result (point_of self.new) }
    {
        if self.accept(Symbol::Range) {
            Ok(Some(self.whole()?))
        } else {
            Ok(None)
        }
    }

    /// What an arm is for, with the colon.
    pub(crate) fn case(&mut self) -> Result<Case, Stop>
        ensures { Takes (λ fuel. statements.case fuel) (point_of self.old) result (point_of self.new) }
    {
        if self.accept_word(Keyword::Default) {
            self.expect(Symbol::Colon)?;
            Ok(Case::Default)
        } else {
            self.expect_word(Keyword::Case)?;
            let ranges = self.commas()?;
            self.expect(Symbol::Colon)?;
            Ok(Case::Ranges(ranges))
        }
    }

    /// Two values with the symbol of a range between them.
    fn span_ends(&mut self) -> Result<Span, Stop>
        ensures { Takes (λ fuel. statements.span_ends fuel) (point_of self.old) result (point_of self.new) }
    {
        let from = self.whole()?;
        self.expect(Symbol::Range)?;
        let to = self.whole()?;
        Ok(Span { from, to })
    }

    /// The values that a switch is over, in square brackets.
    pub(crate) fn switch_span(&mut self) -> Result<Span, Stop>
        ensures { Takes (λ fuel. statements.switch_span fuel) (point_of self.old) result (point_of self.new) }
    {
        let outside = self.enter(Symbol::OpenSquare)?;
        let span = self.span_ends()?;
        self.leave(Symbol::CloseSquare, outside)?;
        Ok(span)
    }
}
