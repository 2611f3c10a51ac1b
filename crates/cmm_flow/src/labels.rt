//! How many labels a body has.

ghost use Rattle.std.specs.Prelude.{◌≡◌, ◌≤◌, ℕ, false, IfOk, IsTrue, nat_lt, None};
ghost use Rattle.std.specs.List.{list_all};
ghost use Rattle.cmm_program.specs.Bodies.{AtLabel, after_inside, is_mark, within};
ghost use Rattle.cmm_program.specs.Numbering.{label_number};
ghost use Rattle.cmm_flow.specs.Relation.{AreAll};
ghost use Rattle.cmm_flow.specs.inside.LayingBlocks.{AreAllArms, has_labels_below};
ghost use Rattle.cmm_flow.specs.inside.Marks.{after_arms, after_list};

use crate::builder::following;
use cmm_program::{Arm, Form, Statement};
use std::alloc::AllocError;

/// One more than the greatest number of a label in some statements, and 0 where they have none.
#[cycle(labels)]
pub fn labels_in(statements: &[Statement]) -> Result<u32, AllocError>
    ensures lacks { IfOk result (λ count. (l : ℕ) → count ≤ l → after_list (AtLabel l) statements.now ≡ None) }
    ensures least { IfOk result (λ count. (limit : ℕ) → AreAll (has_labels_below limit) statements.now → count ≤ limit) }
{
    let mut count = 0;
    for statement in statements {
        count = labels_of(&statement.form)?.max(count);
    }
    Ok(count)
}

/// How many labels stand in a statement.
#[cycle(labels)]
fn labels_of(form: &Form) -> Result<u32, AllocError>
    ensures lacks { IfOk result (λ count. (l : ℕ) → count ≤ l → (is_mark (AtLabel l) form.now ≡ false) × (after_inside (AtLabel l) form.now ≡ None)) }
    ensures least { IfOk result (λ count. (limit : ℕ) → IsTrue (list_all (λ l. nat_lt l limit) (label_number form.now)) → IsTrue (list_all (has_labels_below limit) (within form.now)) → count ≤ limit) }
{
    match form {
        Form::If {
            then,
            otherwise,
            ..
        } => {
            let first = labels_in(then.as_slice())?;
            let second = labels_in(otherwise.as_slice())?;
            Ok(first.max(second))
        }
        Form::Switch { arms, .. } => labels_in_arms(arms.as_slice()),
        Form::Span(body) => labels_in(body.as_slice()),
        Form::Label(label) => following(*label),
        _ => Ok(0),
    }
}

/// How many labels stand in the arms of a switch.
#[cycle(labels)]
fn labels_in_arms(arms: &[Arm]) -> Result<u32, AllocError>
    ensures lacks { IfOk result (λ count. (l : ℕ) → count ≤ l → after_arms (AtLabel l) arms.now ≡ None) }
    ensures least { IfOk result (λ count. (limit : ℕ) → AreAllArms (has_labels_below limit) arms.now → count ≤ limit) }
{
    let mut count = 0;
    for arm in arms {
        count = labels_in(arm.body.as_slice())?.max(count);
    }
    Ok(count)
}
