//! What names mean in a procedure.

ghost use Rattle.std.specs.Prelude.{◌≡◌, IsTrue};
ghost use Rattle.cmm_static_semantics.specs.Declarations as declarations;
ghost use Rattle.cmm_static_semantics.specs.Declarations.{is_declared, number_in};
ghost use Rattle.cmm_static_semantics.specs.Scopes.{senses, types};
ghost use Rattle.cmm_proc_scope.specs.Bodies.{scope_of_body};
ghost use Rattle.cmm_proc_scope.specs.Owned.{local_shown};
ghost use Rattle.cmm_proc_scope.specs.inside.Numbering.{sense_by};

use crate::body_types::BodyTypes;
use crate::own::{Local, Numbered};
use cmm_static_semantics::Sense;
use cmm_typing::Names;
use cmm_words::Name;

/// The names of a procedure, over those of its unit.
#[derive(Drop)]
pub struct BodyNames<'a, N> {
    pub(crate) types: BodyTypes<'a, N>,
}

impl<'a, N: Names> BodyNames<'a, N> {
    /// The same names where they stand as types.
    pub fn types(&self) -> &BodyTypes<'a, N>
        ensures { result.now ≡ self.now.types }
    {
        &self.types
    }

    /// Whether it is a label of a statement.
    pub fn is_label(&self, name: &Name) -> bool
        ensures { result ≡ is_declared declarations.is_label name.now (scope_of_body N.senses self.now).own }
    {
        match self.types.find(name) {
            Some(own) => matches!(own.local, Local::Label),
            None => false,
        }
    }

    /// Whether it is a continuation.
    pub fn is_continuation(&self, name: &Name) -> bool
        ensures { result ≡ is_declared declarations.is_continuation name.now (scope_of_body N.senses self.now).own }
    {
        match self.types.find(name) {
            Some(own) => matches!(own.local, Local::Continuation),
            None => false,
        }
    }

    /// Whether it is a formal or a variable.
    pub fn is_variable(&self, name: &Name) -> bool
        ensures { result ≡ is_declared declarations.is_variable name.now (scope_of_body N.senses self.now).own }
    {
        match self.types.find(name) {
            Some(own) => matches!(own.local, Local::Variable(_)),
            None => false,
        }
    }

    /// The number of a label of a statement; of any other name it says nothing.
    pub fn label_number(&self, name: &Name) -> u32
        ensures { IsTrue (is_declared declarations.is_label name.now (scope_of_body N.senses self.now).own) →
            result ≡ number_in declarations.is_label name.now (scope_of_body N.senses self.now).own }
    {
        match self.types.find(name) {
            Some(own) => own.number,
            None => 0,
        }
    }

    /// What a name of the procedure means.
    fn own_sense(&self, own: Numbered<'a>) -> Sense
        ensures { result ≡ sense_by (types (scope_of_body N.senses self.now)) own.entry.number (local_shown own.entry.local) }
    {
        match own.local {
            Local::Variable(t) => Sense::Variable(own.number, self.types.width_of(t)),
            Local::Room => Sense::Stackdata(own.number),
            Local::Label => Sense::CodeLabel,
            Local::Continuation => Sense::Continuation(own.number),
        }
    }
}

impl<'a, N: Names> Names for BodyNames<'a, N> {
    ghost senses = { λ body. senses (scope_of_body N.senses body) };

    fn sense(&self, name: &Name) -> Option<Sense> {
        match self.types.find(name) {
            Some(own) => Some(self.own_sense(own)),
            None => self.types.outer.sense(name),
        }
    }
}
