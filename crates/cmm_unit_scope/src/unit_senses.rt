//! What the names of a unit mean.

ghost use Rattle.std.specs.Prelude.{◌≡◌, ◌<◌, Some, length, map, slice_get};
ghost use Rattle.cmm_static_semantics.specs.Algebras.{knowns};
ghost use Rattle.cmm_static_semantics.specs.Constants.{as_number};
ghost use Rattle.cmm_static_semantics.specs.Scopes as scopes;
ghost use Rattle.cmm_static_semantics.specs.Typing as typing;
ghost use Rattle.cmm_typing.specs.Fitting.{AreWords};
ghost use Rattle.cmm_static_semantics.specs.Declarations.{found};
ghost use Rattle.cmm_symbols.specs.Numbering.{numbering};
ghost use Rattle.cmm_symbols.specs.Shown.{shown};
ghost use Rattle.cmm_unit_scope.specs.Senses.{senses_of};

use cmm_ast::Expr;
use cmm_static_semantics::Sense;
use cmm_symbols::{Entry, Table, host_named};
use cmm_typing::{Judged, Names, as_number, number_alone, wanted};
use cmm_words::{Constant, Name, Width};

/// What the names of a unit mean.
#[derive(Clone, Copy)]
pub struct UnitSenses<'t, 'a> {
    /// Its declarations.
    pub table: &'t Table<'a, Entry<'a>>,
    /// What each of them means, by its number.
    pub senses: &'t [Sense],
}

/// The number of what a name is first declared as.
fn number_in<'a>(table: &Table<'a, Entry<'a>>, name: &Name) -> Option<usize>
    ensures { result ≡ found name.now (numbering (map shown table.now.declared)) }
{
    table.number(name)
}

impl<'t, 'a> Names for UnitSenses<'t, 'a> {
    ghost senses = { senses_of };

    fn sense(&self, name: &Name) -> Option<Sense> {
        if let Some(host) = host_named(name.as_bytes()) {
            return Some(Sense::Host(host));
        }
        match number_in(self.table, name) {
            Some(number) => self.senses.get(number).copied(),
            None => None,
        }
    }
}

/// A number of this width, or nothing but its width.
fn valued(width: Width, number: Judged<u64>) -> Sense
    ensures { result ≡ scopes.valued width number }
{
    match number {
        Ok(value) => Sense::Value(Constant::Number(value, width)),
        Err(_) => Sense::Broken(Some(width)),
    }
}

impl<'t, 'a> UnitSenses<'t, 'a> {
    /// What the declaration with a number means.
    pub(crate) fn at(&self, number: usize) -> Sense
        requires { number < length self.now.senses.now }
        ensures { slice_get self.now.senses.now number ≡ Some result }
    {
        self.senses[number]
    }

    /// What a constant without a type means, from what the names in it mean.
    pub(crate) fn untyped(&self, value: &Expr) -> Sense
        requires { AreWords (senses_of self.now) }
        ensures { result ≡ scopes.untyped_sense value.now.token (typing.wanted knowns (senses_of self.now) None value.now) }
    {
        match wanted(self, None, value) {
            Ok(bits) => valued(bits.width, as_number(value.token, bits)),
            Err(_) => Sense::Broken(None),
        }
    }

    /// What a constant of a type means, if the type has a width, from what the names in it mean.
    pub(crate) fn typed(&self, width: Option<Width>, value: &Expr) -> Sense
        requires { AreWords (senses_of self.now) }
        ensures { result ≡ scopes.typed_sense (senses_of self.now) value.now width }
    {
        match width {
            Some(width) => valued(width, number_alone(self, Some(width), value)),
            None => Sense::Broken(None),
        }
    }
}
