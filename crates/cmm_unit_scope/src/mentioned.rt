//! The names in an expression, by the numbers of their declarations.
#![tactic(auto, using(crate::proofs::Listed::numbers_append, crate::proofs::Listed::no_numbers, crate::proofs::Listed::one_number, crate::proofs::Listed::no_number))]

ghost use Rattle.std.specs.Prelude.{◌≡◌, ◌++◌, [], ◌∷◌, ℕ, map, flat_map, OnOk};
ghost use Rattle.cmm_static_semantics.specs.Mentions.{ident, values_alone, expr_names, prim_names, memory_names};
ghost use Rattle.cmm_symbols.specs.Numbering.{numbering};
ghost use Rattle.cmm_symbols.specs.Shown.{shown};
ghost use Rattle.cmm_unit_scope.specs.inside.Numbered.{numbers_in};

use cmm_ast::{Expr, ExprForm, Memory, PrimForm};
use cmm_items::Items;
use cmm_linkage::number_of;
use cmm_symbols::{Entry, Table};
use cmm_words::Name;
use std::alloc::AllocError;

/// Adds the number of a name, if it has one.
fn add_name<'a>(
    table: &Table<'a, Entry<'a>>,
    name: &Name,
    to: &mut Items<usize>,
) -> Result<(), AllocError>
    ensures { OnOk result ((token : ℕ) → to.new ≡ to.old ++ numbers_in (numbering (map shown table.now.declared)) (ident name.now token ∷ [])) }
{
    match number_of(table, name) {
        Some(number) => Ok(to.push(number)?),
        None => Ok(()),
    }
}

/// Adds the numbers of the names that are values in an expression.
#[cycle(expression)]
pub(crate) fn add_expr<'a>(
    table: &Table<'a, Entry<'a>>,
    e: &Expr,
    to: &mut Items<usize>,
) -> Result<(), AllocError>
    ensures { OnOk result (to.new ≡ to.old ++ numbers_in (numbering (map shown table.now.declared)) (expr_names values_alone e.now)) }
{
    match &e.form {
        ExprForm::Infix { left, right, .. } => {
            add_expr(table, left.get(), to)?;
            add_expr(table, right.get(), to)?;
            Ok(())
        }
        ExprForm::Prefix { operand, .. } => {
            add_expr(table, operand.get(), to)?;
            Ok(())
        }
        ExprForm::Prim(prim) => {
            add_prim(table, prim, to)?;
            Ok(())
        }
        ExprForm::Memory(memory) => {
            add_memory(table, memory, to)?;
            Ok(())
        }
        ExprForm::Named { operands, .. } => {
            add_operands(table, operands.as_slice(), to)?;
            Ok(())
        }
    }
}

#[cycle(expression)]
fn add_prim<'a>(
    table: &Table<'a, Entry<'a>>,
    prim: &PrimForm,
    to: &mut Items<usize>,
) -> Result<(), AllocError>
    ensures { OnOk result ((token : ℕ) → to.new ≡ to.old ++ numbers_in (numbering (map shown table.now.declared)) (prim_names values_alone token prim.now)) }
{
    match prim {
        PrimForm::Literal { .. } => Ok(()),
        PrimForm::Name(name) => {
            add_name(table, name, to)?;
            Ok(())
        }
        PrimForm::Bracketed(inner) => {
            add_expr(table, inner.get(), to)?;
            Ok(())
        }
    }
}

#[cycle(expression)]
fn add_memory<'a>(
    table: &Table<'a, Entry<'a>>,
    memory: &Memory,
    to: &mut Items<usize>,
) -> Result<(), AllocError>
    ensures { OnOk result (to.new ≡ to.old ++ numbers_in (numbering (map shown table.now.declared)) (memory_names values_alone memory.now)) }
{
    add_expr(table, memory.address.get(), to)?;
    Ok(())
}

#[cycle(expression)]
fn add_operands<'a>(
    table: &Table<'a, Entry<'a>>,
    operands: &[Expr],
    to: &mut Items<usize>,
) -> Result<(), AllocError>
    ensures { OnOk result (to.new ≡ to.old ++ numbers_in (numbering (map shown table.now.declared)) (flat_map (expr_names values_alone) operands.now)) }
{
    for operand in operands {
        add_expr(table, operand, to)?;
    }
    Ok(())
}
