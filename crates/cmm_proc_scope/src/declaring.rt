//! What a procedure declares.

ghost use Rattle.std.specs.Prelude.{◌≡◌, ◌++◌, map, flat_map, IfOk, OnOk};
ghost use Rattle.cmm_static_semantics.specs.Declarations.{Variable, each_as, formal_name, local_names, part_names, room_names, stmt_names};
ghost use Rattle.cmm_symbols.specs.Shown.{piece_part};
ghost use Rattle.cmm_proc_scope.specs.Owned.{local_declared};

use crate::own::Local;
use cmm_ast::{Formal, Ident, LocalForm, Room, RoomForm, StmtForm, TypeName};
use cmm_items::Items;
use cmm_symbols::{Named, Piece};
use std::alloc::{AllocError, Global};

fn add_formals<'a>(
    formals: &'a [Formal],
    to: &mut Items<Named<'a, Local<'a>>>,
) -> Result<(), AllocError>
    ensures { OnOk result (map local_declared to.new ≡ map local_declared to.old ++ map formal_name formals.now) }
{
    for formal in formals {
        to.push(Named {
            name: &formal.name,
            what: Local::Variable(&formal.width),
        })?;
    }
    Ok(())
}

fn add_room<'a>(room: &'a Room, to: &mut Items<Named<'a, Local<'a>>>) -> Result<(), AllocError>
    ensures { OnOk result (map local_declared to.new ≡ map local_declared to.old ++ room_names room.now) }
{
    match &room.form {
        RoomForm::Label(name) => {
            to.push(Named {
                name,
                what: Local::Room,
            })?;
            Ok(())
        }
        RoomForm::Align(_) => Ok(()),
        RoomForm::Data { .. } => Ok(()),
    }
}

fn add_rooms<'a>(rooms: &'a [Room], to: &mut Items<Named<'a, Local<'a>>>) -> Result<(), AllocError>
    ensures { OnOk result (map local_declared to.new ≡ map local_declared to.old ++ flat_map room_names rooms.now) }
{
    for room in rooms {
        add_room(room, to)?;
    }
    Ok(())
}

fn add_variables<'a>(
    width: &'a TypeName,
    names: &'a [Ident],
    to: &mut Items<Named<'a, Local<'a>>>,
) -> Result<(), AllocError>
    ensures { OnOk result (map local_declared to.new ≡ map local_declared to.old ++ each_as (Variable width.now) names.now) }
{
    for name in names {
        to.push(Named {
            name,
            what: Local::Variable(width),
        })?;
    }
    Ok(())
}

fn add_local<'a>(
    form: &'a LocalForm,
    to: &mut Items<Named<'a, Local<'a>>>,
) -> Result<(), AllocError>
    ensures { OnOk result (map local_declared to.new ≡ map local_declared to.old ++ local_names form.now) }
{
    match form {
        LocalForm::Variables { width, names, .. } => add_variables(width, names.as_slice(), to),
        LocalForm::Stackdata(rooms) => add_rooms(rooms.as_slice(), to),
    }
}

fn add_statement<'a>(
    form: &'a StmtForm,
    to: &mut Items<Named<'a, Local<'a>>>,
) -> Result<(), AllocError>
    ensures { OnOk result (map local_declared to.new ≡ map local_declared to.old ++ stmt_names form.now) }
{
    match form {
        StmtForm::Label(name) => {
            to.push(Named {
                name,
                what: Local::Label,
            })?;
            Ok(())
        }
        StmtForm::Continuation { name, .. } => {
            to.push(Named {
                name,
                what: Local::Continuation,
            })?;
            Ok(())
        }
        StmtForm::Empty => Ok(()),
        StmtForm::If { .. } => Ok(()),
        StmtForm::Switch { .. } => Ok(()),
        StmtForm::Span { .. } => Ok(()),
        StmtForm::Assign { .. } => Ok(()),
        StmtForm::Checked { .. } => Ok(()),
        StmtForm::Call { .. } => Ok(()),
        StmtForm::Jump { .. } => Ok(()),
        StmtForm::Return { .. } => Ok(()),
        StmtForm::Goto(_) => Ok(()),
        StmtForm::Cut { .. } => Ok(()),
    }
}

fn add_piece<'a>(piece: Piece<'a>, to: &mut Items<Named<'a, Local<'a>>>) -> Result<(), AllocError>
    ensures { OnOk result (map local_declared to.new ≡ map local_declared to.old ++ part_names (piece_part piece.entry)) }
{
    match piece {
        Piece::Local(local) => add_local(&local.form, to),
        Piece::Stmt(stmt) => add_statement(&stmt.form, to),
    }
}

fn add_pieces<'a>(
    pieces: &[Piece<'a>],
    to: &mut Items<Named<'a, Local<'a>>>,
) -> Result<(), AllocError>
    ensures { OnOk result (map local_declared to.new ≡ map local_declared to.old ++ flat_map part_names (map piece_part pieces.now)) }
{
    for piece in pieces {
        add_piece(*piece, to)?;
    }
    Ok(())
}

/// What a procedure declares: its formals, and then what the pieces of its body do, in textual order.
pub(crate) fn declared_in<'a>(
    alloc: Global,
    formals: &'a [Formal],
    pieces: &[Piece<'a>],
) -> Result<Items<Named<'a, Local<'a>>>, AllocError>
    ensures { IfOk result (λ declared. map local_declared declared ≡ map formal_name formals.now ++ flat_map part_names (map piece_part pieces.now)) }
{
    let mut declared = Items::new(alloc);
    add_formals(formals, &mut declared)?;
    add_pieces(pieces, &mut declared)?;
    Ok(declared)
}
