//! Expressions, by how tightly their operators bind: what stands to the right of one binds more tightly than it.

ghost use Rattle.std.specs.Prelude.{◌≡◌, ◌+◌, ◌-◌, ◌<◌, ◌≤◌, ◌∷◌, ◌++◌, [], pred, length, Ok, IsTrue, OnOk, OnSome, IfOk, Some, pred};
ghost use Rattle.cmm_grammar.specs.Reading.{listed, look, next, passes};
ghost use Rattle.cmm_grammar.specs.ExpressionReading as readers;
ghost use Rattle.cmm_grammar.specs.ExpressionReading.{begins_expression};
ghost use Rattle.cmm_parser.specs.inside.Parsing.{Takes, point_of, prefix_next};

use crate::fault::Stop;
use crate::list::Listed;
use crate::operators::{UNARY_LEVEL, form_level, infix_of, left_level, level_of, prefix_of};
use crate::parser::Parser;
use crate::types::named_type;
use cmm_ast::{Expr, ExprForm, Infix, Memory, Prefix, PrimForm, Primary, TypeName};
use cmm_items::{Boxed, Items};
use cmm_lexer::{Symbol, TokenKind};
use std::alloc::{AllocError, Global};

impl Listed for Expr {
    ghost reads = { λ fuel. readers.whole fuel };

    ghost begins = { begins_expression };

    fn is_next(parser: &Parser<'_>) -> bool {
        parser.is_expression()
    }

    fn parse(parser: &mut Parser<'_>) -> Result<Expr, Stop> {
        parser.whole()
    }
}

impl Parser<'_> {
    /// The next token may begin an expression.
    pub(crate) fn is_expression(&self) -> bool
        ensures { passes readers.begins_expression (next (point_of self.now).left) ≡ result }
    {
        match self.next() {
            Some(TokenKind::Name(_) | TokenKind::Int(_) | TokenKind::Char(_) | TokenKind::Op(_)) =>
                { true }
            Some(TokenKind::Word(_)) => self.next_width().is_some(),
            Some(TokenKind::Symbol(_)) => {
                self.is_symbol(Symbol::Open) || self.next_prefix().is_some()
            }
            _ => false,
        }
    }

    /// The operator that is next, where it stands before its operand.
    fn next_prefix(&self) -> Option<Prefix>
        ensures { result ≡ prefix_next (next (point_of self.now).left) }
    {
        prefix_of(self.next_symbol()?)
    }

    /// The operator that is next, where it stands between two operands, binds at least as tightly as this level, and the left
    /// operand binds tightly enough for it.
    fn next_infix(&self, level: u8, left: &ExprForm) -> Option<Infix>
        ensures { result ≡ readers.infix_next level left.now (next (point_of self.now).left) }
    {
        let operator = infix_of(self.next_symbol()?)?;
        if level <= level_of(operator) && left_level(operator) <= form_level(left) {
            Some(operator)
        } else {
            None
        }
    }

    /// An expression that stands in no other.
    pub(crate) fn whole(&mut self) -> Result<Expr, Stop>
        ensures { Takes (λ fuel. readers.whole fuel) (point_of self.old) result (point_of self.new) }
    {
        let e = self.boxed_whole()?;
        Ok(e.into_inner())
    }

    /// An expression that stands in no other, in its box.
    pub(crate) fn boxed_whole(&mut self) -> Result<Boxed<Expr>, Stop>
        ensures { Takes (λ fuel. readers.whole fuel) (point_of self.old) result (point_of self.new) }
    {
        self.begin_outermost();
        self.operand(0)
    }

    /// A primary expression that stands in no other.
    pub(crate) fn whole_prim(&mut self) -> Result<Primary, Stop>
        ensures { Takes (λ fuel. readers.whole_prim fuel) (point_of self.old) result (point_of self.new) }
    {
        self.begin_outermost();
        let token = self.here();
        let form = self.prim_form()?;
        Ok(Primary { token, form })
    }

    fn prim_form(&mut self) -> Result<PrimForm, Stop>
        ensures { Takes (λ fuel. look (readers.prim_by (readers.operand fuel))) (point_of self.old) result (point_of self.new) }
    {
        let Some(kind) = self.next() else {
            return Err(self.unexpected());
        };
        match kind {
            TokenKind::Name(_) => Ok(PrimForm::Name(self.name()?)),
            TokenKind::Symbol(_) => self.bracketed(),
            _ => self.literal(),
        }
    }

    /// The word in memory of this type, whose address stands in no other expression.
    pub(crate) fn whole_memory(&mut self, width: TypeName) -> Result<Memory, Stop>
        ensures { Takes (λ fuel. readers.whole_memory fuel width) (point_of self.old) result (point_of self.new) }
    {
        self.begin_outermost();
        self.memory(width)
    }

    /// An expression that binds at least as tightly as this level: operators group to the left, and comparisons do not group.
    #[cycle(expression)]
    fn operand(&mut self, level: u8) -> Result<Boxed<Expr>, Stop>
        ensures { Takes (λ fuel. readers.operand fuel level) (point_of self.old) result (point_of self.new) }
    {
        let token = self.here();
        let form = self.unary()?;
        let mut left = boxed(self.alloc, token, form)?;
        while let Some(operator) = self.next_infix(level, &left.get().form) {
            self.operator()?;
            let right = self.operand(level_of(operator) + 1)?;
            left = joined(self.alloc, left, operator, right)?;
        }
        Ok(left)
    }

    /// An expression without an operator between operands, brackets aside.
    #[cycle(expression)]
    fn unary(&mut self) -> Result<ExprForm, Stop>
        ensures { Takes (λ fuel. look (readers.unary_by (pred fuel) (readers.operand (pred fuel)))) (point_of self.old) result (point_of self.new) }
    {
        let Some(kind) = self.next() else {
            return Err(self.unexpected());
        };
        match kind {
            TokenKind::Name(_) => self.name_or_memory(),
            TokenKind::Op(_) => self.named(),
            TokenKind::Symbol(_) => match self.next_prefix() {
                Some(operator) => self.prefix(operator),
                None => Ok(ExprForm::Prim(self.bracketed()?)),
            },
            TokenKind::Word(_) => {
                let width = self.type_name()?;
                Ok(ExprForm::Memory(self.memory(width)?))
            }
            _ => Ok(ExprForm::Prim(self.literal()?)),
        }
    }

    /// A name, or the word in memory whose type it names.
    #[cycle(expression)]
    #[inline(never)]
    fn name_or_memory(&mut self) -> Result<ExprForm, Stop>
        ensures { Takes (λ fuel. readers.name_or_memory (readers.operand (pred fuel))) (point_of self.old) result (point_of self.new) }
    {
        let name = self.ident()?;
        if self.is_symbol(Symbol::OpenSquare) {
            let memory = self.memory(named_type(name))?;
            return Ok(ExprForm::Memory(memory));
        }
        Ok(ExprForm::Prim(PrimForm::Name(name.into_name())))
    }

    /// The operator that is next, and its operand.
    #[cycle(expression)]
    #[inline(never)]
    fn prefix(&mut self, operator: Prefix) -> Result<ExprForm, Stop>
        requires { 0 < length (point_of self.old).left }
        ensures { Takes (λ fuel. readers.prefixed (readers.operand (pred fuel)) (Some operator)) (point_of self.old) result (point_of self.new) }
    {
        self.operator()?;
        let operand = self.operand(UNARY_LEVEL)?;
        Ok(ExprForm::Prefix { operator, operand })
    }

    /// The operator that is next by its name, and its operands in brackets.
    #[cycle(expression)]
    #[inline(never)]
    fn named(&mut self) -> Result<ExprForm, Stop>
        ensures { Takes (λ fuel. readers.named (pred fuel) (readers.operand (pred fuel))) (point_of self.old) result (point_of self.new) }
    {
        let operator = self.operator_name()?;
        let outside = self.enter(Symbol::Open)?;
        let operands = self.operands()?;
        self.leave(Symbol::Close, outside)?;
        Ok(ExprForm::Named { operator, operands })
    }

    /// One operand or more, after which a comma may stand.
    #[cycle(expression)]
    fn operands(&mut self) -> Result<Items<Expr>, Stop>
        ensures { Takes (λ fuel. listed fuel readers.begins_expression (readers.operand fuel 0)) (point_of self.old) result (point_of self.new) }
    {
        let mut operands = Items::new(self.alloc);
        add(&mut operands, self.operand(0)?)?;
        while self.accept(Symbol::Comma) && self.is_expression() {
            add(&mut operands, self.operand(0)?)?;
        }
        Ok(operands)
    }

    #[cycle(expression)]
    #[inline(never)]
    pub(crate) fn bracketed(&mut self) -> Result<PrimForm, Stop>
        ensures { Takes (λ fuel. readers.bracketed (readers.operand (pred fuel))) (point_of self.old) result (point_of self.new) }
    {
        let outside = self.enter(Symbol::Open)?;
        let inner = self.operand(0)?;
        self.leave(Symbol::Close, outside)?;
        Ok(PrimForm::Bracketed(inner))
    }

    /// The word in memory of this type, at the address that is next.
    #[cycle(expression)]
    #[inline(never)]
    pub(crate) fn memory(&mut self, width: TypeName) -> Result<Memory, Stop>
        ensures { Takes (λ fuel. readers.memory (readers.operand (pred fuel)) width) (point_of self.old) result (point_of self.new) }
    {
        let outside = self.enter(Symbol::OpenSquare)?;
        let address = self.operand(0)?;
        let aligned = self.aligned()?;
        self.leave(Symbol::CloseSquare, outside)?;
        Ok(Memory {
            width,
            address,
            aligned,
        })
    }
}

/// An expression of this form, in its box.
#[inline(never)]
fn boxed(alloc: Global, token: u32, form: ExprForm) -> Result<Boxed<Expr>, AllocError>
    ensures { IfOk result (λ e. e ≡ record { token = token; form = form }) }
{
    Boxed::new(alloc, Expr { token, form })
}

/// Two operands with an operator between them.
#[inline(never)]
fn joined(
    alloc: Global,
    left: Boxed<Expr>,
    operator: Infix,
    right: Boxed<Expr>,
) -> Result<Boxed<Expr>, AllocError>
    ensures { IfOk result (λ e. e ≡ readers.joined left operator right) }
{
    let token = left.get().token;
    let form = ExprForm::Infix {
        left,
        operator,
        right,
    };
    boxed(alloc, token, form)
}

/// Puts the expression behind these, out of its box.
#[inline(never)]
fn add(operands: &mut Items<Expr>, operand: Boxed<Expr>) -> Result<(), AllocError>
    ensures { IfOk result (λ _. operands.new ≡ operands.old ++ operand ∷ []) }
{
    operands.push(operand.into_inner())?;
    Ok(())
}
