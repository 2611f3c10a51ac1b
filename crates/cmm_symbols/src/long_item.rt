//! Names that are too long, in declarations, procedures and data.
#![tactic(auto, using(crate::proofs::Lengths::long_none, crate::proofs::Lengths::long_more, crate::proofs::Lengths::long_append))]

ghost use Rattle.std.specs.Prelude.{◌≡◌, ◌++◌, [], ◌∷◌, List, flat_map, map, OnOk};
ghost use Rattle.cmm_static_semantics.specs.Items.{parts_of};
ghost use Rattle.cmm_static_semantics.specs.LongNames.{of_modifiers, of_formal, of_room, of_local, of_part, of_proc, of_export, of_decl, of_count, of_initial, of_datum, of_item};
ghost use Rattle.cmm_symbols.specs.Noted.{long_of};
ghost use Rattle.cmm_symbols.specs.Shown.{piece_part, thing_item};

use crate::long::{HasNames, note_each, note_kind, note_name, note_names, note_some, note_text};
use crate::piece::{Piece, pieces_of};
use crate::thing::Thing;
use cmm_ast::{
    Count, DatumForm, DeclForm, Export, Formal, Import, Initial, Item, LocalForm, Modifiers, Proc,
    Room, RoomForm,
};
use cmm_static_semantics::Spot;
use std::alloc::{AllocError, Global};

impl HasNames for Modifiers {
    ghost names = { of_modifiers };

    fn note_long(&self, best: &mut Option<Spot>) {
        match self {
            Modifiers::Nothing => {}
            Modifiers::Kind(kind) => note_text(kind, best),
            Modifiers::KindInvariant(kind) => note_text(kind, best),
            Modifiers::Invariant(_) => {}
            Modifiers::InvariantKind(_, kind) => note_text(kind, best),
        }
    }
}

impl HasNames for Formal {
    ghost names = { of_formal };

    fn note_long(&self, best: &mut Option<Spot>) {
        self.modifiers.note_long(best);
        self.width.note_long(best);
        note_name(&self.name, best);
    }
}

impl HasNames for Room {
    ghost names = { of_room };

    fn note_long(&self, best: &mut Option<Spot>) {
        match &self.form {
            RoomForm::Label(name) => note_name(name, best),
            RoomForm::Align(_) => {}
            RoomForm::Data { width, count } => {
                width.note_long(best);
                note_some(count, best);
            }
        }
    }
}

impl HasNames for LocalForm {
    ghost names = { of_local };

    fn note_long(&self, best: &mut Option<Spot>) {
        match self {
            LocalForm::Variables {
                modifiers,
                width,
                names,
            } => {
                modifiers.note_long(best);
                width.note_long(best);
                note_names(names.as_slice(), best);
            }
            LocalForm::Stackdata(rooms) => note_each(rooms.as_slice(), best),
        }
    }
}

impl<'a> HasNames for Piece<'a> {
    ghost names = { λ piece. of_part (piece_part piece) };

    fn note_long(&self, best: &mut Option<Spot>) {
        match self {
            Piece::Local(local) => local.form.note_long(best),
            Piece::Stmt(stmt) => stmt.note_long(best),
        }
    }
}

fn note_proc(alloc: Global, proc: &Proc, best: &mut Option<Spot>) -> Result<(), AllocError>
    ensures { OnOk result (best.new ≡ long_of best.old (of_proc proc.now)) }
{
    let pieces = pieces_of(alloc, &proc.body)?;
    note_name(&proc.name, best);
    note_each(proc.formals.as_slice(), best);
    note_each(pieces.as_slice(), best);
    Ok(())
}

impl HasNames for Export {
    ghost names = { of_export };

    fn note_long(&self, best: &mut Option<Spot>) {
        note_name(&self.name, best);
        note_kind(&self.link, best);
    }
}

/// The text before `as` has no limit.
fn note_imports(imports: &[Import], best: &mut Option<Spot>)
    ensures { best.new ≡ long_of best.old (map (λ i. i.name) imports.now) }
{
    for import in imports {
        note_name(&import.name, best);
    }
}

impl HasNames for DeclForm {
    ghost names = { of_decl };

    fn note_long(&self, best: &mut Option<Spot>) {
        match self {
            DeclForm::Import { width, imports } => {
                note_some(width, best);
                note_imports(imports.as_slice(), best);
            }
            DeclForm::Export { width, exports } => {
                note_some(width, best);
                note_each(exports.as_slice(), best);
            }
            DeclForm::Const { width, name, value } => {
                note_some(width, best);
                note_name(name, best);
                value.note_long(best);
            }
            DeclForm::Typedef { width, names } => {
                width.note_long(best);
                note_names(names.as_slice(), best);
            }
            DeclForm::Register {
                kind,
                width,
                names,
                ..
            } => {
                note_kind(kind, best);
                width.note_long(best);
                note_names(names.as_slice(), best);
            }
            DeclForm::Target(_) => {}
        }
    }
}

impl HasNames for Count {
    ghost names = { of_count };

    fn note_long(&self, best: &mut Option<Spot>) {
        match self {
            Count::Of(e) => e.note_long(best),
            Count::One => {}
            Count::OfInitial => {}
        }
    }
}

impl HasNames for Initial {
    ghost names = { of_initial };

    fn note_long(&self, best: &mut Option<Spot>) {
        match self {
            Initial::Values(values) => note_each(values.as_slice(), best),
            Initial::Zeros => {}
            Initial::Text(_) => {}
        }
    }
}

impl HasNames for DatumForm {
    ghost names = { of_datum };

    fn note_long(&self, best: &mut Option<Spot>) {
        match self {
            DatumForm::Label(name) => note_name(name, best),
            DatumForm::Align(_) => {}
            DatumForm::Data {
                width,
                count,
                initial,
            } => {
                width.note_long(best);
                count.note_long(best);
                initial.note_long(best);
            }
        }
    }
}

/// An item; what stands in a span is left out.
fn note_item(alloc: Global, item: &Item, best: &mut Option<Spot>) -> Result<(), AllocError>
    ensures { OnOk result (best.new ≡ long_of best.old (of_item item.now)) }
{
    match item {
        Item::Proc(proc) => note_proc(alloc, proc, best),
        Item::Decl(decl) => {
            decl.form.note_long(best);
            Ok(())
        }
        Item::Datum(datum) => {
            datum.form.note_long(best);
            Ok(())
        }
        Item::Span { key, value, .. } => {
            key.note_long(best);
            value.note_long(best);
            Ok(())
        }
    }
}

fn note_thing<'a>(
    alloc: Global,
    thing: Thing<'a>,
    best: &mut Option<Spot>,
) -> Result<(), AllocError>
    ensures { OnOk result (best.new ≡ long_of best.old (of_item (thing_item thing.entry))) }
{
    match thing {
        Thing::Item(item) => note_item(alloc, item, best),
        Thing::Proc(proc) => note_proc(alloc, proc, best),
        Thing::Decl(decl) => {
            decl.form.note_long(best);
            Ok(())
        }
    }
}

/// Notes names and kinds that are too long: rule 40.
pub fn note_things<'a>(
    alloc: Global,
    things: &[Thing<'a>],
    best: &mut Option<Spot>,
) -> Result<(), AllocError>
    ensures { OnOk result (best.new ≡ long_of best.old (flat_map of_item (map thing_item things.now))) }
{
    for thing in things {
        note_thing(alloc, *thing, best)?;
    }
    Ok(())
}
