//! What names mean in a procedure where they stand as types.

ghost use Rattle.std.specs.Prelude.{◌≡◌, option_map};
ghost use Rattle.cmm_static_semantics.specs.Declarations.{found};
ghost use Rattle.cmm_static_semantics.specs.Judging.{if_ok};
ghost use Rattle.cmm_static_semantics.specs.Scopes.{types};
ghost use Rattle.cmm_static_semantics.specs.Typing.{type_width};
ghost use Rattle.cmm_proc_scope.specs.Owned.{local_shown};
ghost use Rattle.cmm_proc_scope.specs.Bodies.{scope_of_types};
ghost use Rattle.cmm_proc_scope.specs.inside.Numbering.{number_of};

use crate::own::Numbered;
use crate::own_names::OwnNames;
use cmm_ast::TypeName;
use cmm_static_semantics::Sense;
use cmm_typing::{Names, type_width};
use cmm_words::{Name, Width};

/// The names of a unit that no name of a procedure hides.
#[derive(Drop)]
pub struct BodyTypes<'a, N> {
    pub(crate) own: &'a OwnNames<'a>,
    pub(crate) outer: &'a N,
}

impl<'a, N: Names> BodyTypes<'a, N> {
    /// What a name is first declared as in the procedure.
    pub(crate) fn find(&self, name: &Name) -> Option<Numbered<'a>>
        ensures local { option_map (λ own. local_shown own.local) result ≡ found name.now (scope_of_types N.senses self.now).own }
        ensures number { option_map (λ own. own.number) result ≡ option_map (number_of name.now (scope_of_types N.senses self.now).own) (found name.now (scope_of_types N.senses self.now).own) }
    {
        self.own.table.find(name)
    }

    /// The width of a type, if it is not broken.
    pub(crate) fn width_of(&self, t: &TypeName) -> Option<Width>
        ensures { result ≡ if_ok (type_width (types (scope_of_types N.senses self.now)) t.now) }
    {
        match type_width(self, t) {
            Ok(width) => Some(width),
            Err(_) => None,
        }
    }
}

impl<'a, N: Names> Names for BodyTypes<'a, N> {
    ghost senses = { λ body. types (scope_of_types N.senses body) };

    fn sense(&self, name: &Name) -> Option<Sense> {
        match self.find(name) {
            Some(_) => None,
            None => self.outer.sense(name),
        }
    }
}
