//! Blocks, and the statements that hold blocks.

ghost use Rattle.std.specs.Prelude.{◌≡◌, ◌+◌, ◌-◌, ◌<◌, ◌≤◌, ◌∷◌, ◌++◌, [], length, IfOk, OnOk};
ghost use Rattle.cmm_lexer.specs.declared.symbol.Symbol.TheVariants.{OpenSquare};
ghost use Rattle.cmm_lexer.specs.Spellings.{symbol_number};
ghost use Rattle.cmm_grammar.specs.Taking.{is_sign};
ghost use Rattle.cmm_ast.specs.declared.statement.StmtForm.TheVariants as stmts;
ghost use Rattle.cmm_grammar.specs.declared.told_apart.PartForm.TheVariants as forms;
ghost use Rattle.cmm_grammar.specs.Reading.{braces, optional, many};
ghost use Rattle.cmm_grammar.specs.StatementReading as readers;
ghost use Rattle.cmm_grammar.specs.StatementReading.{is_within};
ghost use Rattle.cmm_parser.specs.inside.Parsing.{Takes, MayTake, TakesBlocks, MayTakeBlocks, TakesChain, MayTakeChain, point_of};

use crate::fault::Stop;
use crate::parser::Parser;
use cmm_ast::{Arm, Block, Expr, Local, Otherwise, Part, Primary, Span, Stmt, StmtForm};
use cmm_grammar::PartForm;
use cmm_items::{Boxed, Items};
use cmm_lexer::{Keyword, Symbol};
use std::alloc::{AllocError, Global};

/// The part with these numbers of its first token and of the token after its last.
fn part_of(token: u32, past: u32, form: PartForm) -> Part
    ensures { result ≡ readers.part_of token past form }
{
    match form {
        PartForm::OfLocal(form) => Part::Local(Local { token, past, form }),
        PartForm::OfStmt(form) => Part::Stmt(Stmt { token, past, form }),
    }
}

// What a level of blocks holds while the next one is parsed stays in boxes, and what is made of it is made by functions of their own:
// a part takes 320 bytes, and each copy of one would stand on the stack at each level.

/// The part with these numbers, in a box.
#[inline(never)]
fn boxed_part(
    alloc: Global,
    token: u32,
    past: u32,
    form: Boxed<PartForm>,
) -> Result<Boxed<Part>, AllocError>
    ensures { IfOk result (λ part. part ≡ readers.part_of token past form) }
{
    Boxed::new(alloc, part_of(token, past, form.into_inner()))
}

/// The statement with these numbers, in a box.
#[inline(never)]
fn boxed_stmt(
    alloc: Global,
    token: u32,
    past: u32,
    form: Boxed<StmtForm>,
) -> Result<Boxed<Stmt>, AllocError>
    ensures { IfOk result (λ stmt. stmt ≡ record { token = token; past = past; form = form }) }
{
    let form = form.into_inner();
    Boxed::new(alloc, Stmt { token, past, form })
}

/// This statement, as a part.
#[inline(never)]
fn of_stmt(alloc: Global, form: Boxed<StmtForm>) -> Result<Boxed<PartForm>, AllocError>
    ensures { IfOk result (λ part. part ≡ forms.OfStmt form) }
{
    Boxed::new(alloc, PartForm::OfStmt(form.into_inner()))
}

/// An `if` of these.
#[inline(never)]
fn boxed_if(
    alloc: Global,
    condition: Boxed<Expr>,
    then: Block,
    otherwise: Otherwise,
) -> Result<Boxed<StmtForm>, AllocError>
    ensures { IfOk result (λ form. form ≡ stmts.If condition then otherwise) }
{
    let condition = condition.into_inner();
    Boxed::new(
        alloc,
        StmtForm::If {
            condition,
            then,
            otherwise,
        },
    )
}

/// A `switch` of these.
#[inline(never)]
fn boxed_switch(
    alloc: Global,
    range: Option<Span>,
    value: Boxed<Expr>,
    arms: Items<Arm>,
) -> Result<Boxed<StmtForm>, AllocError>
    ensures { IfOk result (λ form. form ≡ stmts.Switch range value arms) }
{
    let value = value.into_inner();
    Boxed::new(alloc, StmtForm::Switch { range, value, arms })
}

/// A `span` of these.
#[inline(never)]
fn boxed_span(
    alloc: Global,
    key: Primary,
    value: Boxed<Expr>,
    body: Block,
) -> Result<Boxed<StmtForm>, AllocError>
    ensures { IfOk result (λ form. form ≡ stmts.Span key value body) }
{
    let value = value.into_inner();
    Boxed::new(alloc, StmtForm::Span { key, value, body })
}

/// Puts the part behind these, out of its box.
#[inline(never)]
fn add(parts: &mut Items<Part>, part: Boxed<Part>) -> Result<(), AllocError>
    ensures { IfOk result (λ _. parts.new ≡ parts.old ++ part ∷ []) }
{
    parts.push(part.into_inner())?;
    Ok(())
}

impl Parser<'_> {
    /// Statements and declarations in braces.
    #[cycle(statement)]
    pub(crate) fn block(&mut self) -> Result<Block, Stop>
        ensures { Takes (λ fuel. readers.block fuel) (point_of self.old) result (point_of self.new) }
    {
        let outside = self.enter(Symbol::OpenBrace)?;
        let parts = self.body()?;
        self.leave(Symbol::CloseBrace, outside)?;
        Ok(Block { parts })
    }

    /// The parts of a block, up to its closing brace.
    #[cycle(statement)]
    fn body(&mut self) -> Result<Items<Part>, Stop>
        ensures { MayTakeBlocks (λ fuel blocks. many fuel is_within (readers.part fuel blocks) []) (point_of self.old) result (point_of self.new) }
    {
        let mut parts = Items::new(self.alloc);
        while self.is_within(Symbol::CloseBrace) {
            add(&mut parts, self.part()?)?;
        }
        Ok(parts)
    }

    /// A statement or a declaration.
    #[cycle(statement)]
    fn part(&mut self) -> Result<Boxed<Part>, Stop>
        ensures { TakesBlocks readers.part (point_of self.old) result (point_of self.new) }
    {
        let token = self.here();
        let form = self.part_form()?;
        let past = self.here();
        Ok(boxed_part(self.alloc, token, past, form)?)
    }

    /// What a part of a block is, by its first token.
    #[cycle(statement)]
    fn part_form(&mut self) -> Result<Boxed<PartForm>, Stop>
        ensures { TakesBlocks readers.part_form (point_of self.old) result (point_of self.new) }
    {
        if self.accept_word(Keyword::If) {
            Ok(of_stmt(self.alloc, self.if_form()?)?)
        } else if self.accept_word(Keyword::Switch) {
            Ok(of_stmt(self.alloc, self.switch_form()?)?)
        } else if self.accept_word(Keyword::Span) {
            Ok(of_stmt(self.alloc, self.span_form()?)?)
        } else {
            self.boxed_flat_part()
        }
    }

    /// A part that holds no block, in a box.
    #[inline(never)]
    fn boxed_flat_part(&mut self) -> Result<Boxed<PartForm>, Stop>
        ensures { Takes (λ fuel. readers.flat_part fuel) (point_of self.old) result (point_of self.new) }
    {
        let form = self.flat_part()?;
        let part = Boxed::new(self.alloc, form)?;
        Ok(part)
    }

    /// What follows an `if`.
    #[cycle(statement)]
    #[inline(never)]
    fn if_form(&mut self) -> Result<Boxed<StmtForm>, Stop>
        ensures { TakesChain (λ turns fuel blocks. readers.if_form fuel blocks (readers.otherwise turns fuel blocks)) (point_of self.old) result (point_of self.new) }
    {
        let condition = self.boxed_whole()?;
        let then = self.block()?;
        let otherwise = self.otherwise()?;
        Ok(boxed_if(self.alloc, condition, then, otherwise)?)
    }

    /// What stands after the block of an `if`.
    #[cycle(statement)]
    #[inline(never)]
    fn otherwise(&mut self) -> Result<Otherwise, Stop>
        ensures { MayTakeChain readers.otherwise (point_of self.old) result (point_of self.new) }
    {
        if self.accept_word(Keyword::Else) {
            if self.is_symbol(Symbol::OpenBrace) {
                return Ok(Otherwise::Else(self.block()?));
            }
            let chained = self.chained()?;
            return Ok(Otherwise::ElseIf(chained));
        }
        Ok(Otherwise::Nothing)
    }

    /// An `if` after an `else`, which counts as an open bracket until its chain ends.
    #[cycle(statement)]
    fn chained(&mut self) -> Result<Boxed<Stmt>, Stop>
        ensures { TakesChain (λ turns fuel blocks. readers.chained (readers.if_form fuel blocks (readers.otherwise turns fuel blocks))) (point_of self.old) result (point_of self.new) }
    {
        let token = self.here();
        let outside = self.enter_if()?;
        let form = self.if_form()?;
        let past = self.here();
        self.close(outside);
        Ok(boxed_stmt(self.alloc, token, past, form)?)
    }

    /// What follows a `switch`.
    #[cycle(statement)]
    #[inline(never)]
    fn switch_form(&mut self) -> Result<Boxed<StmtForm>, Stop>
        ensures { TakesBlocks readers.switch_form (point_of self.old) result (point_of self.new) }
    {
        let range = self.optional_span()?;
        let value = self.boxed_whole()?;
        let arms = self.braced_arms()?;
        Ok(boxed_switch(self.alloc, range, value, arms)?)
    }

    /// The values that a switch is over, where they stand in square brackets.
    fn optional_span(&mut self) -> Result<Option<Span>, Stop>
        ensures { MayTake (λ fuel. optional (is_sign OpenSquare) (readers.switch_span fuel)) (point_of self.old) result (point_of self.new) }
    {
        if self.is_symbol(Symbol::OpenSquare) {
            Ok(Some(self.switch_span()?))
        } else {
            Ok(None)
        }
    }

    /// The arms of a switch, in braces.
    #[cycle(statement)]
    fn braced_arms(&mut self) -> Result<Items<Arm>, Stop>
        ensures { TakesBlocks (λ fuel blocks. braces (many fuel is_within (readers.arm fuel blocks) [])) (point_of self.old) result (point_of self.new) }
    {
        let outside = self.enter(Symbol::OpenBrace)?;
        let arms = self.arms()?;
        self.leave(Symbol::CloseBrace, outside)?;
        Ok(arms)
    }

    /// The arms of a switch, up to its closing brace.
    #[cycle(statement)]
    fn arms(&mut self) -> Result<Items<Arm>, Stop>
        ensures { MayTakeBlocks (λ fuel blocks. many fuel is_within (readers.arm fuel blocks) []) (point_of self.old) result (point_of self.new) }
    {
        let mut arms = Items::new(self.alloc);
        while self.is_within(Symbol::CloseBrace) {
            arms.push(self.arm()?)?;
        }
        Ok(arms)
    }

    #[cycle(statement)]
    fn arm(&mut self) -> Result<Arm, Stop>
        ensures { TakesBlocks readers.arm (point_of self.old) result (point_of self.new) }
    {
        let token = self.here();
        let case = self.case()?;
        let body = self.block()?;
        Ok(Arm { token, case, body })
    }

    /// What follows a `span`.
    #[cycle(statement)]
    #[inline(never)]
    fn span_form(&mut self) -> Result<Boxed<StmtForm>, Stop>
        ensures { TakesBlocks readers.span_form (point_of self.old) result (point_of self.new) }
    {
        let key = self.whole_prim()?;
        let value = self.boxed_whole()?;
        let body = self.block()?;
        Ok(boxed_span(self.alloc, key, value, body)?)
    }
}
