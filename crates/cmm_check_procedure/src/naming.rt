//! Names that stand for a variable, a label or a continuation.

ghost use Rattle.std.specs.Prelude.{◌≡◌};
ghost use Rattle.cmm_static_semantics.specs.Calls as calls;
ghost use Rattle.cmm_static_semantics.specs.Spots.{first_of};
ghost use Rattle.cmm_proc_scope.specs.Bodies.{scope_of_body};

use cmm_ast::{Ident, Kinded};
use cmm_proc_scope::BodyNames;
use cmm_rules::Rule;
use cmm_static_semantics::{Sense, Spot, unless};
use cmm_typing::Names;

/// Notes that what a name means cannot be assigned to: rules 21 and 22.
pub fn note_target_of(token: u32, sense: Option<Sense>, best: &mut Option<Spot>)
    ensures { best.new ≡ first_of best.old (calls.target_spots token sense) }
{
    let Some(sense) = sense else {
        unless(best, false, Rule::Undeclared, token);
        return;
    };
    match sense {
        Sense::Variable(_, _) => {}
        Sense::Register(_, _) => {}
        Sense::Value(_) => unless(best, false, Rule::NotAVariable, token),
        Sense::Broken(_) => unless(best, false, Rule::NotAVariable, token),
        Sense::Stackdata(_) => unless(best, false, Rule::NotAVariable, token),
        Sense::Continuation(_) => unless(best, false, Rule::NotAVariable, token),
        Sense::Typedef(_) => unless(best, false, Rule::NotAVariable, token),
        Sense::CodeLabel => unless(best, false, Rule::NotAVariable, token),
        Sense::Host(_) => unless(best, false, Rule::NotAVariable, token),
    }
}

/// Notes a name to the left of `=` that cannot be assigned to: rules 21 and 22.
pub fn note_target<'a, N: Names>(names: &BodyNames<'a, N>, name: &Ident, best: &mut Option<Spot>)
    ensures { best.new ≡ first_of best.old (calls.ident_spots (scope_of_body N.senses names.now) name.now) }
{
    note_target_of(name.token, names.sense(&name.name), best);
}

/// Notes a `goto` to what is no label of the procedure: rule 29.
pub fn note_goto<'a, N: Names>(names: &BodyNames<'a, N>, label: &Ident, best: &mut Option<Spot>)
    ensures { best.new ≡ first_of best.old (calls.goto_spots (scope_of_body N.senses names.now) label.now) }
{
    unless(
        best,
        names.is_label(&label.name),
        Rule::NoSuchLabel,
        label.token,
    );
}

/// Notes an annotation to what is no continuation of the procedure: rule 29.
pub(crate) fn note_exit<'a, N: Names>(
    names: &BodyNames<'a, N>,
    exit: &Ident,
    best: &mut Option<Spot>,
)
    ensures { best.new ≡ first_of best.old (calls.exit_spots (scope_of_body N.senses names.now) exit.now) }
{
    unless(
        best,
        names.is_continuation(&exit.name),
        Rule::NoSuchLabel,
        exit.token,
    );
}

/// Notes a parameter of a continuation that is no variable of the procedure: rule 30.
pub(crate) fn note_parameter<'a, N: Names>(
    names: &BodyNames<'a, N>,
    parameter: &Kinded,
    best: &mut Option<Spot>,
)
    ensures { best.new ≡ first_of best.old (calls.parameter_spots (scope_of_body N.senses names.now) parameter.now) }
{
    let name = &parameter.name;
    unless(
        best,
        names.is_variable(&name.name),
        Rule::NotALocalVariable,
        name.token,
    );
}
