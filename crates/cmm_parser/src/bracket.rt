//! What the limits on nesting count: open brackets, and the operators of an outermost expression.

ghost use Rattle.std.specs.Prelude.{◌≡◌, ◌+◌, ◌-◌, ◌<◌, ◌≤◌, length, IfOk, OnOk, Result};
ghost use Rattle.cmm_lexer.specs.Spellings.{keyword_number, symbol_number};
ghost use Rattle.cmm_grammar.specs.Taking.{is_word, is_sign};
ghost use Rattle.cmm_grammar.specs.Reading.{skip_opening, skip_operator, if_next, stop};
ghost use Rattle.cmm_parser.specs.inside.Parsing.{Takes, Opens, point_of, opening, chaining, closing};

use crate::fault::Stop;
use crate::parser::Parser;
use cmm_lexer::{Keyword, Symbol};

/// The most brackets that may be open, an `if` after an `else` among them.
pub(crate) const BRACKET_LIMIT: u32 = 200;

/// The most operators of an outermost expression.
pub(crate) const OPERATOR_LIMIT: u32 = 500;

impl Parser<'_> {
    /// Begins to count the operators of an outermost expression.
    #[tactic(auto, unfolding(crate::specs::inside::Parsing::point_of))]
    pub(crate) fn begin_outermost(&mut self)
        ensures { point_of self.new ≡ record (point_of self.old) { operators = 0 } }
    {
        self.operators = 0;
    }

    /// Takes the next token, which is an operator.
    #[tactic(auto, unfolding(crate::specs::inside::Parsing::point_of))]
    pub(crate) fn operator(&mut self) -> Result<(), Stop>
        requires { 0 < length (point_of self.old).left }
        ensures { Takes (λ fuel. skip_operator) (point_of self.old) result (point_of self.new) }
    {
        if self.operators >= OPERATOR_LIMIT {
            return Err(Stop::TooDeep(self.taken));
        }
        self.take();
        self.operators += 1;
        Ok(())
    }

    /// Takes an opening bracket, and gives how many were open before it.
    #[tactic(auto, unfolding(crate::specs::inside::Parsing::point_of))]
    pub(crate) fn enter(&mut self, bracket: Symbol) -> Result<u32, Stop>
        ensures { Opens (opening bracket) (point_of self.old) result (point_of self.new) }
    {
        if !self.is_symbol(bracket) {
            return Err(self.unexpected());
        }
        self.deepen()
    }

    /// Takes the `if` after an `else`, which counts as an open bracket until its chain ends, and gives how many were open before it.
    #[tactic(auto, unfolding(crate::specs::inside::Parsing::point_of))]
    pub(crate) fn enter_if(&mut self) -> Result<u32, Stop>
        ensures { Opens chaining (point_of self.old) result (point_of self.new) }
    {
        if !self.is_word(Keyword::If) {
            return Err(self.unexpected());
        }
        self.deepen()
    }

    /// Takes the next token, which opens a bracket, and gives how many were open before it.
    #[tactic(auto, unfolding(crate::specs::inside::Parsing::point_of))]
    fn deepen(&mut self) -> Result<u32, Stop>
        requires { 0 < length (point_of self.old).left }
        ensures { Opens skip_opening (point_of self.old) result (point_of self.new) }
    {
        let outside = self.open;
        if outside >= BRACKET_LIMIT {
            return Err(Stop::TooDeep(self.taken));
        }
        self.take();
        self.open += 1;
        Ok(outside)
    }

    /// Takes a closing bracket, outside of which this many are open.
    #[tactic(auto, unfolding(crate::specs::inside::Parsing::point_of))]
    pub(crate) fn leave(&mut self, bracket: Symbol, outside: u32) -> Result<(), Stop>
        ensures { Takes (λ fuel. closing bracket outside) (point_of self.old) result (point_of self.new) }
    {
        self.expect(bracket)?;
        self.close(outside);
        Ok(())
    }

    /// Ends what counted as an open bracket, outside of which this many are open.
    #[tactic(auto, unfolding(crate::specs::inside::Parsing::point_of))]
    pub(crate) fn close(&mut self, outside: u32)
        ensures { point_of self.new ≡ record (point_of self.old) { open_brackets = outside } }
    {
        self.open = outside;
    }
}
