//! The variables of a procedure of a program (C-- Language Specification 2.0, procedures).

ghost use Rattle.std.specs.Prelude.{◌≡◌, ◌++◌, map, flat_map, IfOk, OnOk};
ghost use Rattle.cmm_elaboration.specs.Procedures as meaning;
ghost use Rattle.cmm_symbols.specs.Shown.{piece_part};
ghost use Rattle.cmm_proc_scope.specs.Bodies.{scope_of_body};

use crate::constants::width_at;
use cmm_ast::{Formal, Ident, LocalForm, Modifiers, TypeName};
use cmm_items::Items;
use cmm_proc_scope::{BodyNames, ProcNames};
use cmm_program::VarInfo;
use cmm_symbols::Piece;
use cmm_typing::Names;
use cmm_words::Name;
use std::alloc::{AllocError, Global};

/// The text before the type of a variable, which may be none.
fn kind_in(modifiers: &Modifiers) -> &[u8]
    ensures { result.now ≡ meaning.kind_in modifiers.now }
{
    match modifiers {
        Modifiers::Nothing => &[],
        Modifiers::Kind(kind) => kind.bytes.as_slice(),
        Modifiers::KindInvariant(kind) => kind.bytes.as_slice(),
        Modifiers::Invariant(_) => &[],
        Modifiers::InvariantKind(_, kind) => kind.bytes.as_slice(),
    }
}

fn is_invariant(modifiers: &Modifiers) -> bool
    ensures { result ≡ meaning.is_invariant modifiers.now }
{
    match modifiers {
        Modifiers::Nothing => false,
        Modifiers::Kind(_) => false,
        Modifiers::KindInvariant(_) => true,
        Modifiers::Invariant(_) => true,
        Modifiers::InvariantKind(_, _) => true,
    }
}

/// A variable, from what stands before its name.
fn info_of<'a, N: Names>(
    alloc: Global,
    names: &BodyNames<'a, N>,
    modifiers: &Modifiers,
    t: &TypeName,
) -> Result<VarInfo, AllocError>
    ensures { IfOk result (λ info. info ≡ meaning.variable_info (scope_of_body N.senses names.now) modifiers.now t.now) }
{
    let kind = Name::from_slice(alloc, kind_in(modifiers))?;
    Ok(VarInfo {
        width: width_at(names.types(), t),
        kind,
        invariant: is_invariant(modifiers),
    })
}

fn add_formals<'a, N: Names>(
    alloc: Global,
    names: &BodyNames<'a, N>,
    formals: &[Formal],
    to: &mut Items<VarInfo>,
) -> Result<(), AllocError>
    ensures { OnOk result (to.new ≡ to.old ++ map (meaning.formal_info (scope_of_body N.senses names.now)) formals.now) }
{
    for formal in formals {
        let info = info_of(alloc, names, &formal.modifiers, &formal.width)?;
        to.push(info)?;
    }
    Ok(())
}

/// Adds variables that are declared together.
fn add_each<'a, N: Names>(
    alloc: Global,
    names: &BodyNames<'a, N>,
    modifiers: &Modifiers,
    t: &TypeName,
    declared: &[Ident],
    to: &mut Items<VarInfo>,
) -> Result<(), AllocError>
    ensures { OnOk result (to.new ≡ to.old ++ map (λ i. meaning.variable_info (scope_of_body N.senses names.now) modifiers.now t.now) declared.now) }
{
    for _name in declared {
        let info = info_of(alloc, names, modifiers, t)?;
        to.push(info)?;
    }
    Ok(())
}

fn add_local<'a, N: Names>(
    alloc: Global,
    names: &BodyNames<'a, N>,
    form: &LocalForm,
    to: &mut Items<VarInfo>,
) -> Result<(), AllocError>
    ensures { OnOk result (to.new ≡ to.old ++ meaning.local_infos (scope_of_body N.senses names.now) form.now) }
{
    match form {
        LocalForm::Variables {
            modifiers,
            width,
            names: declared,
        } => add_each(alloc, names, modifiers, width, declared.as_slice(), to),
        LocalForm::Stackdata(_) => Ok(()),
    }
}

fn add_piece<'a, 'b, N: Names>(
    alloc: Global,
    names: &BodyNames<'a, N>,
    piece: Piece<'b>,
    to: &mut Items<VarInfo>,
) -> Result<(), AllocError>
    ensures { OnOk result (to.new ≡ to.old ++ meaning.part_infos (scope_of_body N.senses names.now) (piece_part piece.entry)) }
{
    match piece {
        Piece::Local(local) => add_local(alloc, names, &local.form, to),
        Piece::Stmt(_) => Ok(()),
    }
}

fn add_pieces<'a, 'b, N: Names>(
    alloc: Global,
    names: &BodyNames<'a, N>,
    pieces: &[Piece<'b>],
    to: &mut Items<VarInfo>,
) -> Result<(), AllocError>
    ensures { OnOk result (to.new ≡ to.old ++ flat_map (meaning.part_infos (scope_of_body N.senses names.now)) (map piece_part pieces.now)) }
{
    for piece in pieces {
        add_piece(alloc, names, *piece, to)?;
    }
    Ok(())
}

/// The variables of a procedure, its formals first.
pub fn variable_infos<'a, N: Names>(
    alloc: Global,
    names: &BodyNames<'a, N>,
    own: &ProcNames<'_>,
) -> Result<Items<VarInfo>, AllocError>
    ensures { IfOk result (λ infos. infos ≡ meaning.variable_infos (scope_of_body N.senses names.now) own.now) }
{
    let mut infos = Items::new(alloc);
    add_formals(alloc, names, own.tree().formals.as_slice(), &mut infos)?;
    add_pieces(alloc, names, own.pieces(), &mut infos)?;
    Ok(infos)
}
