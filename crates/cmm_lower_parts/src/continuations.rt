//! The continuations of a procedure of a program (C-- Language Specification 2.0, continuations).

ghost use Rattle.std.specs.Prelude.{◌≡◌, ◌++◌, All, IsTrue, map, flat_map, IfOk, OnOk};
ghost use Rattle.cmm_static_semantics.specs.Declarations.{is_declared, is_continuation, is_variable, number_in};
ghost use Rattle.cmm_static_semantics.specs.Items.{parts_of};
ghost use Rattle.cmm_static_semantics.specs.Scopes.{senses};
ghost use Rattle.cmm_elaboration.specs.Procedures as meaning;
ghost use Rattle.cmm_elaboration.specs.Sites as sites;
ghost use Rattle.cmm_symbols.specs.Shown.{piece_part};
ghost use Rattle.cmm_lower_parts.specs.Owned.{TakesVariables};
ghost use Rattle.cmm_lower_parts.specs.inside.Numbers.{cont_by, form_conts, numbered, part_conts};
ghost use Rattle.cmm_proc_scope.specs.Bodies.{scope_of_body};

use cmm_ast::{Ident, Kinded, StmtForm};
use cmm_items::Items;
use cmm_proc_scope::{BodyNames, ProcNames};
use cmm_program::Cont;
use cmm_static_semantics::Sense;
use cmm_symbols::Piece;
use cmm_typing::Names;
use std::alloc::{AllocError, Global};

/// The number of the variable or continuation that a name means, 0 where it means none.
fn numbered(sense: Option<Sense>) -> u32
    ensures { result ≡ numbered sense }
{
    let Some(sense) = sense else {
        return 0;
    };
    match sense {
        Sense::Variable(number, _) => number,
        Sense::Continuation(number) => number,
        Sense::Register(_, _) => 0,
        Sense::Value(_) => 0,
        Sense::Broken(_) => 0,
        Sense::Stackdata(_) => 0,
        Sense::Host(_) => 0,
        Sense::Typedef(_) => 0,
        Sense::CodeLabel => 0,
    }
}

/// The number of a variable of a procedure.
pub fn variable_number<'a, N: Names>(names: &BodyNames<'a, N>, name: &Ident) -> u32
    ensures numbered { result ≡ numbered (senses (scope_of_body N.senses names.now) name.now.name) }
    ensures declared { IsTrue (is_declared is_variable name.now.name (scope_of_body N.senses names.now).own) →
        result ≡ number_in is_variable name.now.name (scope_of_body N.senses names.now).own }
{
    numbered(names.sense(&name.name))
}

/// The number of a continuation of a procedure.
pub fn continuation_number<'a, N: Names>(names: &BodyNames<'a, N>, name: &Ident) -> u32
    ensures { IsTrue (is_declared is_continuation name.now.name (scope_of_body N.senses names.now).own) →
        result ≡ sites.continuation_of (scope_of_body N.senses names.now) name.now }
{
    numbered(names.sense(&name.name))
}

/// A continuation with these parameters.
fn cont_with<'a, N: Names>(
    alloc: Global,
    names: &BodyNames<'a, N>,
    parameters: &[Kinded],
) -> Result<Cont, AllocError>
    ensures { IfOk result (λ cont. cont ≡ cont_by (senses (scope_of_body N.senses names.now)) parameters.now) }
{
    let mut params = Items::new(alloc);
    for parameter in parameters {
        params.push(variable_number(names, &parameter.name))?;
    }
    Ok(Cont { params })
}

fn add_form<'a, N: Names>(
    alloc: Global,
    names: &BodyNames<'a, N>,
    form: &StmtForm,
    to: &mut Items<Cont>,
) -> Result<(), AllocError>
    ensures { OnOk result (to.new ≡ to.old ++ form_conts (senses (scope_of_body N.senses names.now)) form.now) }
{
    match form {
        StmtForm::Continuation { parameters, .. } => {
            let cont = cont_with(alloc, names, parameters.as_slice())?;
            to.push(cont)?;
            Ok(())
        }
        StmtForm::Empty => Ok(()),
        StmtForm::If { .. } => Ok(()),
        StmtForm::Switch { .. } => Ok(()),
        StmtForm::Span { .. } => Ok(()),
        StmtForm::Assign { .. } => Ok(()),
        StmtForm::Checked { .. } => Ok(()),
        StmtForm::Call { .. } => Ok(()),
        StmtForm::Jump { .. } => Ok(()),
        StmtForm::Return { .. } => Ok(()),
        StmtForm::Label(_) => Ok(()),
        StmtForm::Goto(_) => Ok(()),
        StmtForm::Cut { .. } => Ok(()),
    }
}

fn add_piece<'a, 'b, N: Names>(
    alloc: Global,
    names: &BodyNames<'a, N>,
    piece: Piece<'b>,
    to: &mut Items<Cont>,
) -> Result<(), AllocError>
    ensures { OnOk result (to.new ≡ to.old ++ part_conts (senses (scope_of_body N.senses names.now)) (piece_part piece.entry)) }
{
    match piece {
        Piece::Stmt(stmt) => add_form(alloc, names, &stmt.form, to),
        Piece::Local(_) => Ok(()),
    }
}

fn conts_in<'a, 'b, N: Names>(
    alloc: Global,
    names: &BodyNames<'a, N>,
    pieces: &[Piece<'b>],
) -> Result<Items<Cont>, AllocError>
    ensures { IfOk result (λ conts. conts ≡ flat_map (part_conts (senses (scope_of_body N.senses names.now))) (map piece_part pieces.now)) }
{
    let mut conts = Items::new(alloc);
    for piece in pieces {
        add_piece(alloc, names, *piece, &mut conts)?;
    }
    Ok(conts)
}

/// The continuations of a procedure, by their numbers. Their parameters are its variables, where no rule is broken.
pub fn conts_of<'a, N: Names>(
    alloc: Global,
    names: &BodyNames<'a, N>,
    own: &ProcNames<'_>,
) -> Result<Items<Cont>, AllocError>
    ensures { All (TakesVariables (scope_of_body N.senses names.now)) (parts_of own.now.body) →
        IfOk result (λ conts. conts ≡ flat_map (meaning.part_conts (scope_of_body N.senses names.now)) (parts_of own.now.body)) }
{
    conts_in(alloc, names, own.pieces())
}
