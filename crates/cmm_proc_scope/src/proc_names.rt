//! A procedure laid flat, with its own names.

ghost use Rattle.std.specs.Prelude.{◌≡◌, [], flat_map, map, IfOk};
ghost use Rattle.cmm_static_semantics.specs.Declarations.{again, own_names};
ghost use Rattle.cmm_static_semantics.specs.Items.{parts_of};
ghost use Rattle.cmm_static_semantics.specs.Limits as limits;
ghost use Rattle.cmm_static_semantics.specs.Scopes.{senses, types};
ghost use Rattle.cmm_static_semantics.specs.Spots.{first_of};
ghost use Rattle.cmm_static_semantics.specs.Statements.{scope_of};
ghost use Rattle.cmm_symbols.specs.Shown.{piece_part};
ghost use Rattle.cmm_proc_scope.specs.Bodies.{scope_of_body};
ghost use Rattle.cmm_typing.specs.Fitting.{AreWords};

use crate::body_names::BodyNames;
use crate::body_types::BodyTypes;
use crate::declaring::declared_in;
use crate::numbering::numbered;
use crate::own_names::OwnNames;
use crate::rooms::rooms_of;
use crate::variables::variables_of;
use cmm_ast::{Ident, Proc, Room};
use cmm_items::Items;
use cmm_static_semantics::Spot;
use cmm_symbols::{Piece, Table, pieces_of};
use cmm_typing::Names;
use std::alloc::{AllocError, Global};
use std::marker::Model;

/// A procedure with the pieces of its body, the names that it declares, its variables and its stackdata. Contracts see its tree.
pub struct ProcNames<'a> {
    proc: &'a Proc,
    pieces: Items<Piece<'a>>,
    own: OwnNames<'a>,
    /// The first name that it declares again.
    repeated: Option<Spot>,
    variables: Items<&'a Ident>,
    rooms: Items<&'a Room>,
}

/// In one place, so that whoever lets one go has one call to prove.
impl Drop for ProcNames<'_> {
    fn drop(self) {
        let Self {
            proc: _,
            pieces: _,
            own: _,
            repeated: _,
            variables: _,
            rooms: _,
        } = self;
    }
}

impl<'a> Model for ProcNames<'a> {
    ghost use Rattle.cmm_ast.specs.contracts.procedure.Proc as proc_tree;
    ghost use Rattle.cmm_ast.specs.declared.procedure.Proc.{Proc as ProcTree};

    ghost Value = { ProcTree };

    ghost coded = { proc_tree.the_row.coded };

    ghost use Rattle.cmm_proc_scope.specs.inside.ProcParts.{IsLaidFlat};

    ghost view = { λ p. p.proc.now };

    ghost invariant = { IsLaidFlat };
}

impl<'a> ProcNames<'a> {
    /// A procedure laid flat. Fails only for want of memory; a procedure that declares 2^32 names of a sort or more, which no memory has room for,
    /// fails so too.
    pub fn of(alloc: Global, proc: &'a Proc) -> Result<ProcNames<'a>, AllocError>
        ensures { IfOk result (λ names. names ≡ proc.now) }
    {
        let pieces = pieces_of(alloc, &proc.body)?;
        let declared = declared_in(alloc, proc.formals.as_slice(), pieces.as_slice())?;
        let numbered = numbered(alloc, declared.as_slice())?;
        let mut repeated = None;
        let table = Table::of(alloc, numbered, &mut repeated)?;
        let variables = variables_of(alloc, table.declared.as_slice())?;
        let rooms = rooms_of(alloc, pieces.as_slice())?;
        let own = OwnNames { table };
        Ok(ProcNames {
            proc,
            pieces,
            own,
            repeated,
            variables,
            rooms,
        })
    }

    /// Its tree.
    pub fn tree(&self) -> &'a Proc
        ensures { result.now ≡ self.now }
    {
        self.proc
    }

    /// What stands in its body, in textual order, a statement before those inside it.
    pub fn pieces(&self) -> &[Piece<'a>]
        ensures { map piece_part result.now ≡ parts_of self.now.body }
    {
        self.pieces.as_slice()
    }

    /// Its variables, its formals first, in textual order.
    pub fn variables(&self) -> &[&'a Ident]
        ensures { map (λ v. v.now) result.now ≡ map (λ d. d.name) (limits.variables self.now) }
    {
        self.variables.as_slice()
    }

    /// The rooms of its stackdata, in textual order.
    pub fn rooms(&self) -> &[&'a Room]
        ensures { map (λ r. r.now) result.now ≡ flat_map limits.local_rooms (parts_of self.now.body) }
    {
        self.rooms.as_slice()
    }

    /// Notes each name that it declares again: rule 20.
    pub fn note_repeated(&self, best: &mut Option<Spot>)
        ensures { best.new ≡ first_of best.old (again [] (own_names self.now)) }
    {
        *best = Spot::sooner_of(*best, self.repeated);
    }

    /// Its names, over those of its unit.
    pub fn within<'b, N: Names>(&'b self, outer: &'b N) -> BodyNames<'b, N>
        ensures scope { scope_of_body N.senses result ≡ scope_of (N.senses outer.now) self.now }
        ensures words { AreWords (N.senses outer.now) → AreWords (senses (scope_of_body N.senses result)) }
        ensures type_words { AreWords (N.senses outer.now) → AreWords (types (scope_of_body N.senses result)) }
    {
        let types = BodyTypes {
            own: &self.own,
            outer,
        };
        BodyNames { types }
    }
}
