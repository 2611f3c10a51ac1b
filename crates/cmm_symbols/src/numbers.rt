//! Numbers of procedures and data labels, which count on through all units.

ghost use Rattle.std.specs.Prelude.{◌≡◌, ◌+◌, map, IfOk};
ghost use Rattle.cmm_static_semantics.specs.Declarations.{procs_in, labels_in, sum_of};
ghost use Rattle.cmm_symbols.specs.Shown.{thing_item, alone};

use crate::thing::Thing;
use cmm_ast::{DatumForm, Item};
use std::alloc::AllocError;

/// How many procedures and data labels stand before something: the numbers of the next ones.
#[derive(Clone, Copy)]
pub struct Numbers {
    pub procedures: u32,
    pub labels: u32,
}

/// The number after one. No memory holds 2^32 declarations.
fn next(number: u32) -> Result<u32, AllocError>
    ensures { IfOk result (λ next. next ≡ number + 1) }
{
    match number.checked_add(1) {
        Some(next) => Ok(next),
        None => Err(AllocError),
    }
}

impl Numbers {
    /// Those of the first procedure and of the first data label.
    pub fn first() -> Numbers
        ensures procedures { result.procedures ≡ 0 }
        ensures labels { result.labels ≡ 0 }
    {
        Numbers {
            procedures: 0,
            labels: 0,
        }
    }

    fn after_procedure(self) -> Result<Numbers, AllocError>
        ensures procedures { IfOk result (λ next. next.procedures ≡ self.procedures + 1) }
        ensures labels { IfOk result (λ next. next.labels ≡ self.labels) }
    {
        Ok(Numbers {
            procedures: next(self.procedures)?,
            labels: self.labels,
        })
    }

    fn after_label(self) -> Result<Numbers, AllocError>
        ensures procedures { IfOk result (λ next. next.procedures ≡ self.procedures) }
        ensures labels { IfOk result (λ next. next.labels ≡ self.labels + 1) }
    {
        Ok(Numbers {
            procedures: self.procedures,
            labels: next(self.labels)?,
        })
    }

    fn after_item(self, item: &Item) -> Result<Numbers, AllocError>
        ensures procedures { IfOk result (λ next. next.procedures ≡ self.procedures + procs_in item.now) }
        ensures labels { IfOk result (λ next. next.labels ≡ self.labels + labels_in item.now) }
    {
        match item {
            Item::Proc(_) => self.after_procedure(),
            Item::Datum(datum) => match &datum.form {
                DatumForm::Label(_) => self.after_label(),
                DatumForm::Align(_) => Ok(self),
                DatumForm::Data { .. } => Ok(self),
            },
            Item::Decl(_) => Ok(self),
            Item::Span { .. } => Ok(self),
        }
    }

    /// Those after one thing that stands in a unit.
    pub(crate) fn after_one<'a>(self, thing: Thing<'a>) -> Result<Numbers, AllocError>
        ensures procedures { IfOk result (λ next. next.procedures ≡ self.procedures + procs_in (thing_item thing.entry)) }
        ensures labels { IfOk result (λ next. next.labels ≡ self.labels + labels_in (thing_item thing.entry)) }
    {
        match thing {
            Thing::Item(item) => self.after_item(item),
            Thing::Decl(_) => Ok(self),
            Thing::Proc(_) => self.after_procedure(),
        }
    }

    /// Those after what stands in a unit. Want of memory is the answer where a number would pass 2^32 - 1: there is none for that many
    /// declarations.
    pub fn after<'a>(self, things: &[Thing<'a>]) -> Result<Numbers, AllocError>
        ensures procedures { IfOk result (λ next. next.procedures ≡ self.procedures + sum_of procs_in (map alone things.now)) }
        ensures labels { IfOk result (λ next. next.labels ≡ self.labels + sum_of labels_in (map alone things.now)) }
    {
        let mut numbers = self;
        for thing in things {
            numbers = numbers.after_one(*thing)?;
        }
        Ok(numbers)
    }
}
