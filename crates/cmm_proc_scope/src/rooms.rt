//! The stackdata of a procedure, read off the pieces of its body.

ghost use Rattle.std.specs.Prelude.{◌≡◌, ◌++◌, map, flat_map, IfOk, OnOk};
ghost use Rattle.cmm_static_semantics.specs.Limits as limits;
ghost use Rattle.cmm_proc_scope.specs.inside.LocalRooms.{rooms_in};
ghost use Rattle.cmm_symbols.specs.Shown.{piece_part};

use cmm_ast::{LocalForm, Room};
use cmm_items::Items;
use cmm_symbols::Piece;
use std::alloc::{AllocError, Global};

fn add_each<'a>(rooms: &'a [Room], to: &mut Items<&'a Room>) -> Result<(), AllocError>
    ensures { OnOk result (map (λ r. r.now) to.new ≡ map (λ r. r.now) to.old ++ rooms.now) }
{
    for room in rooms {
        to.push(room)?;
    }
    Ok(())
}

fn add_local<'a>(form: &'a LocalForm, to: &mut Items<&'a Room>) -> Result<(), AllocError>
    ensures { OnOk result (map (λ r. r.now) to.new ≡ map (λ r. r.now) to.old ++ rooms_in form.now) }
{
    match form {
        LocalForm::Stackdata(rooms) => add_each(rooms.as_slice(), to),
        LocalForm::Variables { .. } => Ok(()),
    }
}

/// Adds the rooms that a piece of a body declares.
fn add_declared<'a>(piece: Piece<'a>, to: &mut Items<&'a Room>) -> Result<(), AllocError>
    ensures { OnOk result (map (λ r. r.now) to.new ≡ map (λ r. r.now) to.old ++ limits.local_rooms (piece_part piece.entry)) }
{
    match piece {
        Piece::Local(local) => add_local(&local.form, to),
        Piece::Stmt(_) => Ok(()),
    }
}

/// The rooms of a procedure, in textual order.
pub(crate) fn rooms_of<'a>(
    alloc: Global,
    pieces: &[Piece<'a>],
) -> Result<Items<&'a Room>, AllocError>
    ensures { IfOk result (λ rooms. map (λ r. r.now) rooms ≡ flat_map limits.local_rooms (map piece_part pieces.now)) }
{
    let mut rooms = Items::new(alloc);
    for piece in pieces {
        add_declared(*piece, &mut rooms)?;
    }
    Ok(rooms)
}
