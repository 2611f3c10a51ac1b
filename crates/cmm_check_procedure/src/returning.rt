//! Returns.
#![tactic(auto, using(cmm_static_semantics::proofs::Shared::first_of_append))]

ghost use Rattle.std.specs.Prelude.{◌≡◌};
ghost use Rattle.cmm_static_semantics.specs.Scopes.{senses};
ghost use Rattle.cmm_static_semantics.specs.Spots.{first_of};
ghost use Rattle.cmm_static_semantics.specs.Statements as rules;
ghost use Rattle.cmm_proc_scope.specs.Bodies.{scope_of_body};
ghost use Rattle.cmm_typing.specs.Fitting.{AreWords};

use cmm_ast::Exit;
use cmm_proc_scope::BodyNames;
use cmm_rules::Rule;
use cmm_static_semantics::{Spot, unless};
use cmm_typing::{Names, note_number_of_primary, number_of_primary};

/// The most alternate exits of a call site.
const EXIT_LIMIT: u64 = 64;

/// Whether an exit is one of those that there are, where both numbers are known.
fn is_exit(index: Option<u64>, count: Option<u64>) -> bool
    ensures { result ≡ rules.is_exit index count }
{
    match (index, count) {
        (Some(index), Some(count)) => index <= count && count <= EXIT_LIMIT,
        (None, Some(count)) => count <= EXIT_LIMIT,
        (Some(_), None) => true,
        (None, None) => true,
    }
}

/// Notes the faults of the exit of a return: both numbers are constants, and rule 32 where there is no such exit.
pub(crate) fn note_exit<'a, N: Names>(
    names: &BodyNames<'a, N>,
    exit: &Option<Exit>,
    best: &mut Option<Spot>,
)
    requires { AreWords (senses (scope_of_body N.senses names.now)) }
    ensures { best.new ≡ first_of best.old (rules.return_spots (scope_of_body N.senses names.now) exit.now) }
{
    match exit {
        None => {}
        Some(exit) => {
            note_number_of_primary(names, &exit.index, best);
            note_number_of_primary(names, &exit.count, best);
            let index = number_of_primary(names, &exit.index);
            let count = number_of_primary(names, &exit.count);
            unless(
                best,
                is_exit(index.ok(), count.ok()),
                Rule::BadReturnIndex,
                exit.token,
            );
        }
    }
}
