//! The tokens that have a span at the call sites of a procedure.

ghost use Rattle.std.specs.Prelude.{◌≡◌, ◌==◌, ◌*◌, ◌+◌, ◌++◌, [], ◌∷◌, ℕ, List, Bool, IfOk, OnOk};
ghost use Rattle.std.specs.List.{list_any};
ghost use Rattle.cmm_static_semantics.specs.Items.{SpanTree, part_within, parts_in, parts_inside, parts_otherwise};
ghost use Rattle.cmm_static_semantics.specs.Limits as limits;
ghost use Rattle.cmm_static_semantics.specs.Scopes.{senses};
ghost use Rattle.cmm_static_semantics.specs.Typing.{of_primary};
ghost use Rattle.cmm_limits.specs.Capped.{capped};
ghost use Rattle.cmm_limits.specs.inside.InForce.{AreInForce, HasTokens, one_more, parts_of_arms, tokens_at};
ghost use Rattle.cmm_proc_scope.specs.Bodies.{scope_of_body};
ghost use Rattle.cmm_typing.specs.Fitting.{AreWords};

use crate::sites::is_site;
use cmm_ast::{Arm, Block, Otherwise, Part, Primary, Proc, Stmt, StmtForm};
use cmm_items::Items;
use cmm_proc_scope::BodyNames;
use cmm_typing::{Names, number_of_primary};
use std::alloc::{AllocError, Global};

pub(crate) fn number_or_zero<N: Names>(names: &N, key: &Primary) -> u64
    requires { AreWords (N.senses names.now) }
    ensures { result ≡ limits.number_or_zero (N.senses names.now) (of_primary key.now) }
{
    number_of_primary(names, key).unwrap_or(0)
}

fn contains(tokens: &[u64], token: u64) -> bool
    ensures { result ≡ list_any (λ t. t == token) tokens.now }
{
    tokens.iter().any(|t| *t == token)
}

/// How many different tokens there are with one more.
pub(crate) fn with_one_more(tokens: &[u64], different: u64, token: u64) -> u64
    ensures { result ≡ one_more (list_any (λ t. t == token) tokens.now) different }
{
    if contains(tokens, token) {
        different
    } else {
        different.saturating_add(1)
    }
}

/// The different tokens at a statement itself, if it is a call site.
fn own_tokens(form: &StmtForm, different: u64) -> u64
    ensures { result ≡ tokens_at (limits.is_site form.now) different }
{
    if is_site(form) { different } else { 0 }
}

/// The different tokens at each call site of a block, added up, where `around` different ones are in force around it.
#[cycle(spans)]
pub(crate) fn in_block<'a, N: Names>(
    block: &Block,
    names: &BodyNames<'a, N>,
    tokens: &mut Items<u64>,
    different: u64,
) -> Result<u64, AllocError>
    requires { AreWords (senses (scope_of_body N.senses names.now)) }
    ensures tokens { OnOk result (tokens.new ≡ tokens.old) }
    ensures sum { IfOk result (λ sum. (spans : List SpanTree) (around : List ℕ) → AreInForce (senses (scope_of_body N.senses names.now)) tokens.old different spans around →
        sum ≡ capped (limits.site_tokens (scope_of_body N.senses names.now) around (parts_in spans block.now))) }
{
    let mut sum: u64 = 0;
    for part in block.parts.as_slice() {
        let more = in_part(part, names, tokens, different)?;
        sum = sum.saturating_add(more);
    }
    Ok(sum)
}

#[cycle(spans)]
fn in_part<'a, N: Names>(
    part: &Part,
    names: &BodyNames<'a, N>,
    tokens: &mut Items<u64>,
    different: u64,
) -> Result<u64, AllocError>
    requires { AreWords (senses (scope_of_body N.senses names.now)) }
    ensures tokens { OnOk result (tokens.new ≡ tokens.old) }
    ensures sum { IfOk result (λ sum. (spans : List SpanTree) (around : List ℕ) → AreInForce (senses (scope_of_body N.senses names.now)) tokens.old different spans around →
        sum ≡ capped (limits.site_tokens (scope_of_body N.senses names.now) around (part_within spans part.now))) }
{
    match part {
        Part::Local(_) => Ok(0),
        Part::Stmt(stmt) => in_stmt(stmt, names, tokens, different),
    }
}

#[cycle(spans)]
fn in_stmt<'a, N: Names>(
    stmt: &Stmt,
    names: &BodyNames<'a, N>,
    tokens: &mut Items<u64>,
    different: u64,
) -> Result<u64, AllocError>
    requires { AreWords (senses (scope_of_body N.senses names.now)) }
    ensures tokens { OnOk result (tokens.new ≡ tokens.old) }
    ensures sum { IfOk result (λ sum. (spans : List SpanTree) (around : List ℕ) → AreInForce (senses (scope_of_body N.senses names.now)) tokens.old different spans around →
        sum ≡ capped (limits.site_tokens (scope_of_body N.senses names.now) around (part_within spans (Part.Stmt stmt.now)))) }
{
    let own = own_tokens(&stmt.form, different);
    let inner = in_form(&stmt.form, names, tokens, different)?;
    Ok(own.saturating_add(inner))
}

/// The different tokens at each call site inside a statement, added up.
#[cycle(spans)]
fn in_form<'a, N: Names>(
    form: &StmtForm,
    names: &BodyNames<'a, N>,
    tokens: &mut Items<u64>,
    different: u64,
) -> Result<u64, AllocError>
    requires { AreWords (senses (scope_of_body N.senses names.now)) }
    ensures tokens { OnOk result (tokens.new ≡ tokens.old) }
    ensures sum { IfOk result (λ sum. (spans : List SpanTree) (around : List ℕ) → AreInForce (senses (scope_of_body N.senses names.now)) tokens.old different spans around →
        sum ≡ capped (limits.site_tokens (scope_of_body N.senses names.now) around (parts_inside spans form.now))) }
{
    match form {
        StmtForm::If {
            then,
            otherwise,
            ..
        } => {
            let first = in_block(then, names, tokens, different)?;
            let second = in_otherwise(otherwise, names, tokens, different)?;
            Ok(first.saturating_add(second))
        }
        StmtForm::Switch { arms, .. } => in_arms(arms.as_slice(), names, tokens, different),
        StmtForm::Span { key, body, .. } => {
            let token = number_or_zero(names, key);
            let inside = with_one_more(tokens.as_slice(), different, token);
            tokens.push(token)?;
            let sum = in_block(body, names, tokens, inside)?;
            tokens.pop();
            Ok(sum)
        }
        StmtForm::Empty => Ok(0),
        StmtForm::Assign { .. } => Ok(0),
        StmtForm::Checked { .. } => Ok(0),
        StmtForm::Call { .. } => Ok(0),
        StmtForm::Jump { .. } => Ok(0),
        StmtForm::Return { .. } => Ok(0),
        StmtForm::Label(_) => Ok(0),
        StmtForm::Continuation { .. } => Ok(0),
        StmtForm::Goto(_) => Ok(0),
        StmtForm::Cut { .. } => Ok(0),
    }
}

#[cycle(spans)]
fn in_otherwise<'a, N: Names>(
    otherwise: &Otherwise,
    names: &BodyNames<'a, N>,
    tokens: &mut Items<u64>,
    different: u64,
) -> Result<u64, AllocError>
    requires { AreWords (senses (scope_of_body N.senses names.now)) }
    ensures tokens { OnOk result (tokens.new ≡ tokens.old) }
    ensures sum { IfOk result (λ sum. (spans : List SpanTree) (around : List ℕ) → AreInForce (senses (scope_of_body N.senses names.now)) tokens.old different spans around →
        sum ≡ capped (limits.site_tokens (scope_of_body N.senses names.now) around (parts_otherwise spans otherwise.now))) }
{
    match otherwise {
        Otherwise::Nothing => Ok(0),
        Otherwise::Else(block) => in_block(block, names, tokens, different),
        Otherwise::ElseIf(stmt) => in_stmt(stmt.get(), names, tokens, different),
    }
}

#[cycle(spans)]
fn in_arms<'a, N: Names>(
    arms: &[Arm],
    names: &BodyNames<'a, N>,
    tokens: &mut Items<u64>,
    different: u64,
) -> Result<u64, AllocError>
    requires { AreWords (senses (scope_of_body N.senses names.now)) }
    ensures tokens { OnOk result (tokens.new ≡ tokens.old) }
    ensures sum { IfOk result (λ sum. (spans : List SpanTree) (around : List ℕ) → AreInForce (senses (scope_of_body N.senses names.now)) tokens.old different spans around →
        sum ≡ capped (limits.site_tokens (scope_of_body N.senses names.now) around (parts_of_arms spans arms.now))) }
{
    let mut sum: u64 = 0;
    for arm in arms {
        let more = in_block(&arm.body, names, tokens, different)?;
        sum = sum.saturating_add(more);
    }
    Ok(sum)
}

/// Adds the tokens of the spans around a procedure, the innermost first in the slice and last in the list. The answer is how many are different.
fn add_around(around: &[u64], tokens: &mut Items<u64>) -> Result<u64, AllocError>
    requires { tokens.old ≡ [] }
    ensures { IfOk result (λ different. HasTokens tokens.new different around.now) }
{
    let mut different = 0;
    for index in (0..around.len()).rev() {
        let token = around[index];
        different = with_one_more(tokens.as_slice(), different, token);
        tokens.push(token)?;
    }
    Ok(different)
}

/// For each call site of a procedure the different tokens that have a span there, added up: those of spans in its body and those of the spans
/// around it, the innermost first. What would be 2^64 or more is given as 2^64 - 1. Fails only for want of memory.
pub fn site_tokens<'a, N: Names>(
    alloc: Global,
    names: &BodyNames<'a, N>,
    around: &[u64],
    proc: &Proc,
) -> Result<u64, AllocError>
    requires { AreWords (senses (scope_of_body N.senses names.now)) }
    ensures { IfOk result (λ sum. sum ≡ capped (limits.site_tokens (scope_of_body N.senses names.now) around.now (parts_in [] proc.now.body))) }
{
    let mut tokens = Items::new(alloc);
    let different = add_around(around, &mut tokens)?;
    in_block(&proc.body, names, &mut tokens, different)
}
