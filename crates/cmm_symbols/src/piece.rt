//! What stands in a body, whatever it is nested in.

ghost use Rattle.std.specs.Prelude.{◌≡◌, ◌++◌, List, map, IfOk, OnOk};
ghost use Rattle.cmm_static_semantics.specs.Items.{SpanTree, part_within, parts_in, parts_otherwise, parts_of};
ghost use Rattle.cmm_symbols.specs.inside.Arms.{in_arms};
ghost use Rattle.cmm_symbols.specs.Shown.{piece_part, whats};

use cmm_ast::{Arm, Block, Local, Otherwise, Part, Stmt, StmtForm};
use cmm_items::Items;
use std::alloc::{AllocError, Global};

/// A declaration or a statement of a body.
#[derive(Clone, Copy)]
pub enum Piece<'a> {
    Local(&'a Local),
    Stmt(&'a Stmt),
}

/// What stands in a body, in textual order, a statement before those inside it.
pub fn pieces_of<'a>(alloc: Global, body: &'a Block) -> Result<Items<Piece<'a>>, AllocError>
    ensures { IfOk result (λ pieces. map piece_part pieces ≡ parts_of body.now) }
{
    let mut pieces = Items::new(alloc);
    add_block(body, &mut pieces)?;
    Ok(pieces)
}

#[cycle(pieces)]
fn add_block<'a>(block: &'a Block, to: &mut Items<Piece<'a>>) -> Result<(), AllocError>
    ensures { OnOk result ((spans : List SpanTree) → map piece_part to.new ≡ map piece_part to.old ++ whats (parts_in spans block.now)) }
{
    for part in block.parts.as_slice() {
        add_part(part, to)?;
    }
    Ok(())
}

#[cycle(pieces)]
fn add_part<'a>(part: &'a Part, to: &mut Items<Piece<'a>>) -> Result<(), AllocError>
    ensures { OnOk result ((spans : List SpanTree) → map piece_part to.new ≡ map piece_part to.old ++ whats (part_within spans part.now)) }
{
    match part {
        Part::Local(local) => Ok(to.push(Piece::Local(local))?),
        Part::Stmt(stmt) => add_stmt(stmt, to),
    }
}

/// Adds a statement and what stands inside it.
#[cycle(pieces)]
fn add_stmt<'a>(stmt: &'a Stmt, to: &mut Items<Piece<'a>>) -> Result<(), AllocError>
    ensures { OnOk result ((spans : List SpanTree) → map piece_part to.new ≡ map piece_part to.old ++ whats (part_within spans (Part.Stmt stmt.now))) }
{
    to.push(Piece::Stmt(stmt))?;
    match &stmt.form {
        StmtForm::If {
            then,
            otherwise,
            ..
        } => {
            add_block(then, to)?;
            add_otherwise(otherwise, to)
        }
        StmtForm::Switch { arms, .. } => add_arms(arms.as_slice(), to),
        StmtForm::Span { body, .. } => add_block(body, to),
        StmtForm::Empty => Ok(()),
        StmtForm::Assign { .. } => Ok(()),
        StmtForm::Checked { .. } => Ok(()),
        StmtForm::Call { .. } => Ok(()),
        StmtForm::Jump { .. } => Ok(()),
        StmtForm::Return { .. } => Ok(()),
        StmtForm::Label(_) => Ok(()),
        StmtForm::Continuation { .. } => Ok(()),
        StmtForm::Goto(_) => Ok(()),
        StmtForm::Cut { .. } => Ok(()),
    }
}

#[cycle(pieces)]
fn add_otherwise<'a>(otherwise: &'a Otherwise, to: &mut Items<Piece<'a>>) -> Result<(), AllocError>
    ensures { OnOk result ((spans : List SpanTree) → map piece_part to.new ≡ map piece_part to.old ++ whats (parts_otherwise spans otherwise.now)) }
{
    match otherwise {
        Otherwise::Nothing => Ok(()),
        Otherwise::Else(block) => add_block(block, to),
        Otherwise::ElseIf(stmt) => add_stmt(stmt.get(), to),
    }
}

#[cycle(pieces)]
fn add_arms<'a>(arms: &'a [Arm], to: &mut Items<Piece<'a>>) -> Result<(), AllocError>
    ensures { OnOk result ((spans : List SpanTree) → map piece_part to.new ≡ map piece_part to.old ++ in_arms spans arms.now) }
{
    for arm in arms {
        add_block(&arm.body, to)?;
    }
    Ok(())
}
