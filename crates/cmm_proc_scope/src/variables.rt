//! The variables of a procedure, among what it declares.

ghost use Rattle.std.specs.Prelude.{◌≡◌, ◌++◌, map, IfOk, OnOk};
ghost use Rattle.cmm_proc_scope.specs.Owned.{own_declared};
ghost use Rattle.cmm_proc_scope.specs.inside.Variables.{names_if_variable, variable_names};

use crate::own::{Local, Numbered};
use cmm_ast::Ident;
use cmm_items::Items;
use cmm_symbols::Named;
use std::alloc::{AllocError, Global};

/// Adds the name of a declaration, if it is of a variable.
fn add_variable<'a>(
    named: Named<'a, Numbered<'a>>,
    to: &mut Items<&'a Ident>,
) -> Result<(), AllocError>
    ensures { OnOk result (map (λ v. v.now) to.new ≡ map (λ v. v.now) to.old ++ names_if_variable (own_declared named.entry)) }
{
    match named.what.local {
        Local::Variable(_) => Ok(to.push(named.name)?),
        Local::Room => Ok(()),
        Local::Label => Ok(()),
        Local::Continuation => Ok(()),
    }
}

/// The names of the variables among some declarations, in their order.
pub(crate) fn variables_of<'a>(
    alloc: Global,
    declared: &[Named<'a, Numbered<'a>>],
) -> Result<Items<&'a Ident>, AllocError>
    ensures { IfOk result (λ names. map (λ v. v.now) names ≡ variable_names (map own_declared declared.now)) }
{
    let mut names = Items::new(alloc);
    for named in declared {
        add_variable(*named, &mut names)?;
    }
    Ok(names)
}
