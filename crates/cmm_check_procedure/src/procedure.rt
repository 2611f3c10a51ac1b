//! A whole procedure: its names, its formals and the parts of its body.
#![tactic(auto, using(cmm_static_semantics::proofs::Shared::first_of_append))]

ghost use Rattle.std.specs.Prelude.{◌≡◌, OnOk, flat_map, map};
ghost use Rattle.cmm_static_semantics.specs.Scopes.{senses};
ghost use Rattle.cmm_static_semantics.specs.Spots.{first_of};
ghost use Rattle.cmm_static_semantics.specs.Statements as rules;
ghost use Rattle.cmm_symbols.specs.Shown.{piece_part};
ghost use Rattle.cmm_proc_scope.specs.Bodies.{scope_of_body};
ghost use Rattle.cmm_typing.specs.Fitting.{AreWords};

use crate::declaring::{note_formals, note_local};
use crate::statement::note_statement;
use cmm_proc_scope::{BodyNames, ProcNames};
use cmm_static_semantics::Spot;
use cmm_symbols::Piece;
use cmm_typing::Names;
use std::alloc::{AllocError, Global};

/// Notes the faults of a declaration or a statement of a body, what stands inside it left out. Fails only for want of memory.
pub fn note_part<'a, N: Names>(
    alloc: Global,
    names: &BodyNames<'a, N>,
    piece: Piece<'_>,
    best: &mut Option<Spot>,
) -> Result<(), AllocError>
    requires { AreWords (senses (scope_of_body N.senses names.now)) }
    ensures { OnOk result (best.new ≡ first_of best.old (rules.part_spots (scope_of_body N.senses names.now) (piece_part piece.entry))) }
{
    match piece {
        Piece::Local(local) => {
            note_local(names, &local.form, best);
            Ok(())
        }
        Piece::Stmt(stmt) => note_statement(alloc, names, stmt, best),
    }
}

fn note_parts<'a, N: Names>(
    alloc: Global,
    names: &BodyNames<'a, N>,
    pieces: &[Piece<'_>],
    best: &mut Option<Spot>,
) -> Result<(), AllocError>
    requires { AreWords (senses (scope_of_body N.senses names.now)) }
    ensures { OnOk result (best.new ≡ first_of best.old (flat_map (rules.part_spots (scope_of_body N.senses names.now)) (map piece_part pieces.now))) }
{
    for piece in pieces {
        note_part(alloc, names, *piece, best)?;
    }
    Ok(())
}

/// Notes which rules a procedure breaks among the names of its unit, the limits on a whole procedure left out. Fails only for want of memory.
pub fn note_procedure<N: Names>(
    alloc: Global,
    own: &ProcNames<'_>,
    outer: &N,
    best: &mut Option<Spot>,
) -> Result<(), AllocError>
    requires { AreWords (N.senses outer.now) }
    ensures { OnOk result (best.new ≡ first_of best.old (rules.proc_spots (N.senses outer.now) own.now)) }
{
    let names = own.within(outer);
    own.note_repeated(best);
    note_formals(&names, own.tree().formals.as_slice(), best);
    note_parts(alloc, &names, own.pieces(), best)
}
