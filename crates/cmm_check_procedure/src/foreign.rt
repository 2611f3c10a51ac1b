//! Calls of the host.

ghost use Rattle.std.specs.Prelude.{◌≡◌, ◌==◌, Bool, List, [], Option};
ghost use Rattle.cmm_static_semantics.specs.Calls as calls;
ghost use Rattle.cmm_static_semantics.specs.Scopes.{senses};
ghost use Rattle.cmm_check_procedure.specs.inside.Hosts.{host_of};
ghost use Rattle.cmm_proc_scope.specs.Bodies.{scope_of_body};
ghost use Rattle.cmm_typing.specs.Fitting.{AreWords};

use cmm_ast::{Actual, Callee, CalleeForm, Flow, Kinded, Text};
use cmm_proc_scope::BodyNames;
use cmm_static_semantics::{Host, Known, Sense, Typed};
use cmm_typing::{Judged, Names, judge};
use cmm_words::Width;

fn may_be_bits64(judged: &Judged<Typed<Known, ()>>) -> bool
    ensures { result ≡ calls.may_be_bits64 judged.now }
{
    match judged {
        Ok(typed) => match typed {
            Typed::Bits(x) => x.width.bits() == 64,
            Typed::Test(_) => false,
        },
        Err(_) => true,
    }
}

fn may_hold_bits64(width: Option<Width>) -> bool
    ensures { result ≡ calls.may_hold_bits64 width }
{
    match width {
        Some(width) => width.bits() == 64,
        None => true,
    }
}

fn is_put_byte<'a, N: Names>(
    names: &BodyNames<'a, N>,
    results: &[Kinded],
    actuals: &[Actual],
) -> bool
    requires { AreWords (senses (scope_of_body N.senses names.now)) }
    ensures { result ≡ calls.is_host_call (scope_of_body N.senses names.now) Host.PutByte results.now actuals.now }
{
    match results {
        [] => match actuals {
            [actual] => may_be_bits64(&judge(names, &actual.value)),
            [] => false,
            [_, _, ..] => false,
        },
        [_, ..] => false,
    }
}

fn is_get_byte<'a, N: Names>(
    names: &BodyNames<'a, N>,
    results: &[Kinded],
    actuals: &[Actual],
) -> bool
    ensures { result ≡ calls.is_host_call (scope_of_body N.senses names.now) Host.GetByte results.now actuals.now }
{
    match results {
        [taken] => match actuals {
            [] => may_hold_bits64(Sense::target_width(names.sense(&taken.name.name))),
            [_, ..] => false,
        },
        [] => false,
        [_, _, ..] => false,
    }
}

/// Whether a call of a procedure of the host passes and takes what it does.
fn is_host_call<'a, N: Names>(
    names: &BodyNames<'a, N>,
    host: Host,
    results: &[Kinded],
    actuals: &[Actual],
) -> bool
    requires { AreWords (senses (scope_of_body N.senses names.now)) }
    ensures { result ≡ calls.is_host_call (scope_of_body N.senses names.now) host results.now actuals.now }
{
    match host {
        Host::PutByte => is_put_byte(names, results, actuals),
        Host::GetByte => is_get_byte(names, results, actuals),
        Host::Yield => false,
    }
}

fn host_of(sense: Option<Sense>) -> Option<Host>
    ensures { result ≡ host_of sense }
{
    let Some(sense) = sense else {
        return None;
    };
    match sense {
        Sense::Host(host) => Some(host),
        Sense::Variable(_, _) => None,
        Sense::Register(_, _) => None,
        Sense::Value(_) => None,
        Sense::Broken(_) => None,
        Sense::Stackdata(_) => None,
        Sense::Continuation(_) => None,
        Sense::Typedef(_) => None,
        Sense::CodeLabel => None,
    }
}

/// The procedure of the host that is called, if it is one.
pub fn foreign_callee<'a, N: Names>(names: &BodyNames<'a, N>, callee: &Callee) -> Option<Host>
    ensures { result ≡ calls.foreign_callee (scope_of_body N.senses names.now) callee.now }
{
    match &callee.form {
        CalleeForm::Name(name) => host_of(names.sense(&name.name)),
        CalleeForm::Memory(_) => None,
        CalleeForm::Bracketed(_) => None,
    }
}

/// Whether a foreign call is a call of the host in C, without annotations: else rule 38.
pub fn is_foreign<'a, N: Names>(
    names: &BodyNames<'a, N>,
    convention: &Text,
    results: &[Kinded],
    callee: &Callee,
    actuals: &[Actual],
    flows: &[Flow],
) -> bool
    requires { AreWords (senses (scope_of_body N.senses names.now)) }
    ensures { result ≡ calls.is_foreign (scope_of_body N.senses names.now) convention.now results.now callee.now actuals.now flows.now }
{
    let in_c = convention.bytes.as_slice() == b"C".as_slice();
    let of_host = match foreign_callee(names, callee) {
        Some(host) => is_host_call(names, host, results, actuals),
        None => false,
    };
    in_c && of_host && flows.is_empty()
}
