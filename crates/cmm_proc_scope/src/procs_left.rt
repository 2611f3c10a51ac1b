//! The procedures that a walk over a unit has still to meet.

ghost use Rattle.std.specs.Prelude.{◌≡◌, ◌∷◌, [], IfSome, IfNone};
ghost use Rattle.cmm_static_semantics.specs.Items.{items_of};
ghost use Rattle.cmm_proc_scope.specs.Procs.{procs_of_items};

use crate::flat_unit::FlatUnit;
use crate::proc_names::ProcNames;
use std::marker::Model;

/// The procedures that a walk over the tree of a unit has still to meet, in textual order. Contracts see them as trees.
#[derive(Drop)]
pub struct ProcsLeft<'a> {
    procs: &'a [ProcNames<'a>],
}

impl<'a> Model for ProcsLeft<'a> {
    ghost use Rattle.std.specs.Prelude.{List};
    ghost use Rattle.std.specs.Coded.{coded_list};
    ghost use Rattle.cmm_ast.specs.contracts.procedure.Proc as proc_tree;
    ghost use Rattle.cmm_ast.specs.declared.procedure.Proc.{Proc as ProcTree};

    ghost Value = { List ProcTree };

    ghost coded = { coded_list proc_tree.the_row.coded };

    ghost view = { λ left. left.procs.now };
}

impl<'a> ProcsLeft<'a> {
    /// All procedures of a unit.
    pub fn all_of(unit: &'a FlatUnit<'a>) -> ProcsLeft<'a>
        ensures { result ≡ procs_of_items (items_of unit.now) }
    {
        ProcsLeft {
            procs: unit.procs(),
        }
    }

    /// Takes the next one, if any is left.
    pub fn next(&mut self) -> Option<&'a ProcNames<'a>>
        ensures some { IfSome result (λ own. self.old ≡ own.now ∷ self.new) }
        ensures none { IfNone result (self.old ≡ []) }
    {
        let procs = self.procs;
        match procs {
            [own, rest @ ..] => {
                self.procs = rest;
                Some(own)
            }
            [] => None,
        }
    }
}
