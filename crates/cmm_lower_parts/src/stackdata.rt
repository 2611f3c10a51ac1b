//! The stackdata of a procedure of a program (C-- Language Specification 2.0, stack data).

ghost use Rattle.std.specs.Prelude.{◌≡◌, ◌<◌, ◌^◌, All, map, IfOk};
ghost use mathlib.Core.List.{reverse};
ghost use Rattle.cmm_static_semantics.specs.Scopes.{senses};
ghost use Rattle.cmm_elaboration.specs.Procedures as meaning;
ghost use Rattle.cmm_lower_parts.specs.Held.{item_held};
ghost use Rattle.cmm_lower_parts.specs.Owned.{rooms_in};
ghost use Rattle.cmm_lower_parts.specs.inside.Rooms.{alignment_before, form_item};
ghost use Rattle.cmm_proc_scope.specs.Bodies.{scope_of_body};
ghost use Rattle.cmm_typing.specs.Fitting.{AreWords};

use crate::lengths::{alignment_of, length_of};
use cmm_ast::{Room, RoomForm};
use cmm_check_declarations::{bytes_of, words_in};
use cmm_items::Items;
use cmm_proc_scope::{BodyNames, ProcNames};
use cmm_program::StackItem;
use cmm_typing::Names;
use std::alloc::{AllocError, Global};

/// A room as an item, where what stands behind it is aligned so.
fn item_of<'a, N: Names>(names: &BodyNames<'a, N>, form: &RoomForm, behind: u32) -> StackItem
    requires { AreWords (senses (scope_of_body N.senses names.now)) }
    ensures { result ≡ item_held (form_item (scope_of_body N.senses names.now) behind form.now) }
{
    match form {
        RoomForm::Label(_) => StackItem {
            align: behind,
            length: 0,
            label: true,
        },
        RoomForm::Align(alignment) => StackItem {
            align: alignment_of(alignment.value),
            length: 0,
            label: false,
        },
        RoomForm::Data { width, count } => {
            let size = bytes_of(names.types(), width);
            StackItem {
                align: size as u32,
                length: length_of(words_in(names, count), size),
                label: false,
            }
        }
    }
}

/// How a label before a room is aligned, by the room's own alignment and how what stands behind it is aligned.
fn alignment_before(form: &RoomForm, own: u32, behind: u32) -> u32
    ensures { result ≡ alignment_before form.now own behind }
{
    match form {
        RoomForm::Label(_) => behind,
        RoomForm::Align(_) => own.max(behind),
        RoomForm::Data { .. } => own,
    }
}

/// Rooms as items, the last first.
fn from_behind<'a, N: Names>(
    alloc: Global,
    names: &BodyNames<'a, N>,
    rooms: &[&Room],
) -> Result<Vec<StackItem>, AllocError>
    requires { AreWords (senses (scope_of_body N.senses names.now)) }
    ensures { IfOk result (λ items. reverse items.items ≡ map item_held (meaning.stack_items (scope_of_body N.senses names.now) (map (λ r. r.now) rooms.now))) }
{
    let mut items = Vec::new(alloc);
    let mut behind = 1;
    for index in (0..rooms.len()).rev() {
        let room = rooms[index];
        let item = item_of(names, &room.form, behind);
        behind = alignment_before(&room.form, item.align, behind);
        items.push(item)?;
    }
    Ok(items)
}

/// The stackdata of a procedure. An item of 2^32 bytes or more, which no accepted procedure has, is given as one of 2^32 - 1.
pub fn stack_items<'a, N: Names>(
    alloc: Global,
    names: &BodyNames<'a, N>,
    own: &ProcNames<'_>,
) -> Result<Items<StackItem>, AllocError>
    requires { AreWords (senses (scope_of_body N.senses names.now)) }
    ensures held { IfOk result (λ items. items ≡ map item_held (meaning.stack_items (scope_of_body N.senses names.now) (rooms_in own.now))) }
    ensures fitting { All (λ i. i.length < 2 ^ 32) (meaning.stack_items (scope_of_body N.senses names.now) (rooms_in own.now)) →
        IfOk result (λ items. items ≡ meaning.stack_items (scope_of_body N.senses names.now) (rooms_in own.now)) }
{
    let mut items = from_behind(alloc, names, own.rooms())?;
    items.reverse();
    Ok(Items::from_vec(items))
}
