//! Callees.
#![tactic(auto, using(cmm_static_semantics::proofs::Shared::first_of_append))]

ghost use Rattle.std.specs.Prelude.{◌≡◌, Option, Some, false};
ghost use Rattle.cmm_words.specs.declared.width.Width.TheVariants.{W64};
ghost use Rattle.cmm_static_semantics.specs.Algebras.{knowns};
ghost use Rattle.cmm_static_semantics.specs.Calls as calls;
ghost use Rattle.cmm_static_semantics.specs.Judging as judging;
ghost use Rattle.cmm_static_semantics.specs.Judging.{with_ok, spots};
ghost use Rattle.cmm_static_semantics.specs.Scopes.{senses};
ghost use Rattle.cmm_static_semantics.specs.Spots.{first_of};
ghost use Rattle.cmm_static_semantics.specs.Typing as typing;
ghost use Rattle.cmm_proc_scope.specs.Bodies.{scope_of_body};
ghost use Rattle.cmm_typing.specs.Fitting.{AreWords, FitsSense};

use cmm_ast::{Callee, CalleeForm};
use cmm_proc_scope::BodyNames;
use cmm_rules::Rule;
use cmm_static_semantics::{Bits, Host, Known, Sense, Spot, unless};
use cmm_typing::{
    Judged, Names, as_wanted, name_type, note_bits, note_bits_of_memory, note_judged,
};
use cmm_words::Width;

/// A name is to be bits64: else rule 21, 23 or 24.
fn wanted_name(token: u32, sense: Option<Sense>) -> Judged<Bits<Known>>
    requires { FitsSense sense }
    ensures { result ≡ with_ok (typing.name_type knowns token sense) (judging.as_wanted (Some W64) token) }
{
    let typed = name_type(token, sense)?;
    as_wanted(Some(Width::W64), token, typed)
}

/// Notes a callee that is a procedure of the host, unless it is `yield` and that may be called here: rule 38.
fn note_called_host(allowed: bool, token: u32, sense: Option<Sense>, best: &mut Option<Spot>)
    ensures { best.new ≡ first_of best.old (calls.called_host allowed token sense) }
{
    let Some(sense) = sense else {
        return;
    };
    match sense {
        Sense::Host(host) => note_host(allowed, token, host, best),
        Sense::Variable(_, _) => {}
        Sense::Register(_, _) => {}
        Sense::Value(_) => {}
        Sense::Broken(_) => {}
        Sense::Stackdata(_) => {}
        Sense::Continuation(_) => {}
        Sense::Typedef(_) => {}
        Sense::CodeLabel => {}
    }
}

fn note_host(allowed: bool, token: u32, host: Host, best: &mut Option<Spot>)
    ensures { best.new ≡ first_of best.old (calls.called_host allowed token (Some (Sense.Host host))) }
{
    match host {
        Host::Yield => unless(best, allowed, Rule::BadHostCall, token),
        Host::PutByte => unless(best, false, Rule::BadHostCall, token),
        Host::GetByte => unless(best, false, Rule::BadHostCall, token),
    }
}

/// Notes the faults of a callee, which is bits64 and is no procedure of the host, but for `yield` where that may be called.
pub fn note_callee<'a, N: Names>(
    names: &BodyNames<'a, N>,
    may_yield: bool,
    callee: &Callee,
    best: &mut Option<Spot>,
)
    requires { AreWords (senses (scope_of_body N.senses names.now)) }
    ensures { best.new ≡ first_of best.old (calls.callee_spots (scope_of_body N.senses names.now) may_yield callee.now) }
{
    match &callee.form {
        CalleeForm::Name(name) => {
            let sense = names.sense(&name.name);
            note_judged(&wanted_name(callee.token, sense), best);
            note_called_host(may_yield, callee.token, sense, best);
        }
        CalleeForm::Memory(memory) => {
            note_bits_of_memory(names, Some(Width::W64), callee.token, memory, best);
        }
        CalleeForm::Bracketed(e) => note_bits(names, Some(Width::W64), e, best),
    }
}

/// Notes the faults of the callee of a foreign call, which may be any procedure of the host.
pub fn note_foreign_callee<'a, N: Names>(
    names: &BodyNames<'a, N>,
    callee: &Callee,
    best: &mut Option<Spot>,
)
    requires { AreWords (senses (scope_of_body N.senses names.now)) }
    ensures { best.new ≡ first_of best.old (calls.foreign_callee_spots (scope_of_body N.senses names.now) callee.now) }
{
    match &callee.form {
        CalleeForm::Name(name) => {
            let sense = names.sense(&name.name);
            note_judged(&wanted_name(callee.token, sense), best);
        }
        CalleeForm::Memory(_) => note_callee(names, false, callee, best),
        CalleeForm::Bracketed(_) => note_callee(names, false, callee, best),
    }
}
