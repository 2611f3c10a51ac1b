//! Where the stackdata of a procedure ends. What is broken takes no room.
#![tactic(auto, using(cmm_static_semantics::proofs::Shared::first_of_append))]

ghost use Rattle.std.specs.Prelude.{◌≡◌, ◌≤◌, ◌∷◌, [], ℕ, map};
ghost use Rattle.std.specs.Option.{ForSome};
ghost use Rattle.cmm_static_semantics.specs.Limits as limits;
ghost use Rattle.cmm_static_semantics.specs.Scopes.{senses, types};
ghost use Rattle.cmm_static_semantics.specs.Spots.{first_of, unless};
ghost use Rattle.cmm_limits.specs.inside.Ends.{IsWithin, form_piece};
ghost use Rattle.cmm_program.specs.Layout.{end_of};
ghost use Rattle.cmm_program.specs.Limits.{stackdata_limit};
ghost use Rattle.cmm_rules.specs.declared.rule.Rule.TheVariants.{Limit};
ghost use Rattle.cmm_proc_scope.specs.Bodies.{scope_of_body};
ghost use Rattle.cmm_typing.specs.Fitting.{AreWords};

use cmm_ast::{Int, Room, RoomForm};
use cmm_check_declarations::{bytes_of, laid, words_in};
use cmm_proc_scope::BodyNames;
use cmm_rules::Rule;
use cmm_static_semantics::{Spot, unless};
use cmm_typing::{Names, is_alignment};

/// The most bytes that the stackdata of a procedure may have, with its padding: 64 KiB.
const STACKDATA_LIMIT: u64 = 0x1_0000;

/// Where an alignment ends.
fn after_alignment(alignment: &Int, place: u64) -> Option<u64>
    requires { place ≤ stackdata_limit }
    ensures { IsWithin result (end_of place (limits.align_piece alignment.now.value ∷ [])) }
{
    if is_alignment(alignment.value) {
        laid(STACKDATA_LIMIT, place, alignment.value, 1, 0)
    } else {
        laid(STACKDATA_LIMIT, place, 1, 1, 0)
    }
}

/// Where a room ends from a place on, unless that is past the limit.
fn after_room<'a, N: Names>(names: &BodyNames<'a, N>, form: &RoomForm, place: u64) -> Option<u64>
    requires words { AreWords (senses (scope_of_body N.senses names.now)) }
    requires place { place ≤ stackdata_limit }
    ensures { IsWithin result (end_of place (form_piece (scope_of_body N.senses names.now) form.now ∷ [])) }
{
    match form {
        RoomForm::Label(_) => laid(STACKDATA_LIMIT, place, 1, 1, 0),
        RoomForm::Align(alignment) => after_alignment(alignment, place),
        RoomForm::Data { width, count } => {
            let size = bytes_of(names.types(), width);
            laid(STACKDATA_LIMIT, place, size, size, words_in(names, count))
        }
    }
}

/// The same where the place may be past the limit.
fn after_any<'a, N: Names>(names: &BodyNames<'a, N>, room: &Room, place: Option<u64>) -> Option<u64>
    requires words { AreWords (senses (scope_of_body N.senses names.now)) }
    requires place { ForSome place (λ p. p ≤ stackdata_limit) }
    ensures { (at : ℕ) → IsWithin place at → IsWithin result (end_of at (limits.room_piece (scope_of_body N.senses names.now) room.now ∷ [])) }
{
    match place {
        Some(place) => after_room(names, &room.form, place),
        None => None,
    }
}

/// Notes each room that ends past the limit: rule 40.
pub(crate) fn note_rooms<'a, N: Names>(
    names: &BodyNames<'a, N>,
    rooms: &[&Room],
    best: &mut Option<Spot>,
)
    requires { AreWords (senses (scope_of_body N.senses names.now)) }
    ensures { best.new ≡ first_of best.old (limits.room_limits (scope_of_body N.senses names.now) 0 (map (λ r. r.now) rooms.now)) }
{
    let mut place = Some(0);
    for room in rooms {
        place = after_any(names, room, place);
        unless(best, place.is_some(), Rule::Limit, room.token);
    }
}
