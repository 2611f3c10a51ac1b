//! How many tokens a statement has, those in the blocks inside it left out.

ghost use Rattle.std.specs.Prelude.{◌≡◌, ◌-◌};
ghost use Rattle.cmm_lower.specs.inside.Lengths.{arms_length, parts_length};
ghost use Rattle.cmm_elaboration.specs.Bodies as meaning;

use cmm_ast::{Arm, Otherwise, Part, Stmt, StmtForm};

/// How many tokens a declaration or a statement has.
fn part_length(part: &Part) -> u32
    ensures { result ≡ meaning.part_length part.now }
{
    match part {
        Part::Local(local) => local.past.saturating_sub(local.token),
        Part::Stmt(stmt) => stmt.past.saturating_sub(stmt.token),
    }
}

/// A count of tokens without those of the parts of a block.
fn without_parts(tokens: u32, parts: &[Part]) -> u32
    ensures { result ≡ tokens - parts_length parts.now }
{
    let mut left = tokens;
    for part in parts {
        left = left.saturating_sub(part_length(part));
    }
    left
}

/// A count of tokens without those in the blocks of some arms.
fn without_arms(tokens: u32, arms: &[Arm]) -> u32
    ensures { result ≡ tokens - arms_length arms.now }
{
    let mut left = tokens;
    for arm in arms {
        left = without_parts(left, arm.body.parts.as_slice());
    }
    left
}

/// A count of tokens without those of what stands after the block of an `if`.
fn without_otherwise(tokens: u32, otherwise: &Otherwise) -> u32
    ensures { result ≡ tokens - meaning.otherwise_length otherwise.now }
{
    match otherwise {
        Otherwise::Nothing => tokens,
        Otherwise::Else(block) => without_parts(tokens, block.parts.as_slice()),
        Otherwise::ElseIf(stmt) => {
            let inner = stmt.get();
            tokens.saturating_sub(inner.past.saturating_sub(inner.token))
        }
    }
}

/// A count of tokens without those in the blocks of a statement.
fn without_blocks(tokens: u32, form: &StmtForm) -> u32
    ensures { result ≡ tokens - meaning.blocks_length form.now }
{
    match form {
        StmtForm::If {
            then,
            otherwise,
            ..
        } => without_otherwise(without_parts(tokens, then.parts.as_slice()), otherwise),
        StmtForm::Switch { arms, .. } => without_arms(tokens, arms.as_slice()),
        StmtForm::Span { body, .. } => without_parts(tokens, body.parts.as_slice()),
        StmtForm::Empty => tokens,
        StmtForm::Assign { .. } => tokens,
        StmtForm::Checked { .. } => tokens,
        StmtForm::Call { .. } => tokens,
        StmtForm::Jump { .. } => tokens,
        StmtForm::Return { .. } => tokens,
        StmtForm::Label(_) => tokens,
        StmtForm::Continuation { .. } => tokens,
        StmtForm::Goto(_) => tokens,
        StmtForm::Cut { .. } => tokens,
    }
}

/// How many tokens a statement has, those in the blocks inside it left out: the braces are its own.
pub(crate) fn own_tokens(stmt: &Stmt) -> u32
    ensures { result ≡ stmt.now.past - stmt.now.token - meaning.blocks_length stmt.now.form }
{
    without_blocks(stmt.past.saturating_sub(stmt.token), &stmt.form)
}
