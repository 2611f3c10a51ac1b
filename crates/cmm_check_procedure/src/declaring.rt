//! What a procedure declares.
#![tactic(auto, using(cmm_static_semantics::proofs::Shared::first_of_append))]

ghost use Rattle.std.specs.Prelude.{◌≡◌, flat_map};
ghost use Rattle.cmm_static_semantics.specs.Scopes.{senses};
ghost use Rattle.cmm_static_semantics.specs.Spots.{first_of};
ghost use Rattle.cmm_static_semantics.specs.Statements as rules;
ghost use Rattle.cmm_proc_scope.specs.Bodies.{scope_of_body};
ghost use Rattle.cmm_check_procedure.specs.inside.Formals.{count_spots, formal_spots, formals_spots, too_many_formals};
ghost use Rattle.cmm_typing.specs.Fitting.{AreWords};

use cmm_ast::{Expr, Formal, LocalForm, Modifiers, Room, RoomForm};
use cmm_proc_scope::BodyNames;
use cmm_rules::Rule;
use cmm_static_semantics::{Spot, unless};
use cmm_typing::{Names, note_alignment, note_number, note_type};

/// The most formals of a procedure.
const FORMAL_LIMIT: usize = 64;

/// Notes the faults of how many values a room is of, where that is said.
fn note_count<'a, N: Names>(names: &BodyNames<'a, N>, count: &Option<Expr>, best: &mut Option<Spot>)
    requires { AreWords (senses (scope_of_body N.senses names.now)) }
    ensures { best.new ≡ first_of best.old (count_spots (scope_of_body N.senses names.now) count.now) }
{
    match count {
        Some(count) => note_number(names, count, best),
        None => {}
    }
}

/// Notes the faults of a piece of stackdata: those of its type and count, and rule 40 of an alignment.
fn note_room<'a, N: Names>(names: &BodyNames<'a, N>, room: &Room, best: &mut Option<Spot>)
    requires { AreWords (senses (scope_of_body N.senses names.now)) }
    ensures { best.new ≡ first_of best.old (rules.room_spots (scope_of_body N.senses names.now) room.now) }
{
    match &room.form {
        RoomForm::Label(_) => {}
        RoomForm::Align(alignment) => note_alignment(alignment, best),
        RoomForm::Data { width, count } => {
            note_type(names.types(), width, best);
            note_count(names, count, best);
        }
    }
}

fn note_rooms<'a, N: Names>(names: &BodyNames<'a, N>, rooms: &[Room], best: &mut Option<Spot>)
    requires { AreWords (senses (scope_of_body N.senses names.now)) }
    ensures { best.new ≡ first_of best.old (flat_map (rules.room_spots (scope_of_body N.senses names.now)) rooms.now) }
{
    for room in rooms {
        note_room(names, room, best);
    }
}

/// Notes the faults of a declaration in a body: those of the type of variables, and of each piece of stackdata.
pub(crate) fn note_local<'a, N: Names>(
    names: &BodyNames<'a, N>,
    form: &LocalForm,
    best: &mut Option<Spot>,
)
    requires { AreWords (senses (scope_of_body N.senses names.now)) }
    ensures { best.new ≡ first_of best.old (rules.local_spots (scope_of_body N.senses names.now) form.now) }
{
    match form {
        LocalForm::Variables { width, .. } => note_type(names.types(), width, best),
        LocalForm::Stackdata(rooms) => note_rooms(names, rooms.as_slice(), best),
    }
}

/// The first token of a formal.
fn formal_token(formal: &Formal) -> u32
    ensures { result ≡ rules.formal_token formal.now }
{
    match &formal.modifiers {
        Modifiers::Nothing => formal.width.token,
        Modifiers::Kind(kind) => kind.token,
        Modifiers::KindInvariant(kind) => kind.token,
        Modifiers::Invariant(token) => *token,
        Modifiers::InvariantKind(token, _) => *token,
    }
}

/// Notes the first formal past the limit: rule 33.
fn note_too_many(formals: &[Formal], best: &mut Option<Spot>)
    ensures { best.new ≡ first_of best.old (too_many_formals formals.now) }
{
    match formals.get(FORMAL_LIMIT) {
        Some(formal) => unless(best, false, Rule::TooManyValues, formal_token(formal)),
        None => {}
    }
}

/// Notes the faults of the type of a formal.
fn note_formal<'a, N: Names>(names: &BodyNames<'a, N>, formal: &Formal, best: &mut Option<Spot>)
    ensures { best.new ≡ first_of best.old (formal_spots (scope_of_body N.senses names.now) formal.now) }
{
    note_type(names.types(), &formal.width, best);
}

fn note_types<'a, N: Names>(names: &BodyNames<'a, N>, formals: &[Formal], best: &mut Option<Spot>)
    ensures { best.new ≡ first_of best.old (flat_map (formal_spots (scope_of_body N.senses names.now)) formals.now) }
{
    for formal in formals {
        note_formal(names, formal, best);
    }
}

/// Notes the faults of formals: rule 33 where there are too many, and those of their types.
pub(crate) fn note_formals<'a, N: Names>(
    names: &BodyNames<'a, N>,
    formals: &[Formal],
    best: &mut Option<Spot>,
)
    ensures { best.new ≡ first_of best.old (formals_spots (scope_of_body N.senses names.now) formals.now) }
{
    note_too_many(formals, best);
    note_types(names, formals, best);
}
