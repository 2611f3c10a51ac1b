//! The arms of a switch (C-- Language Specification 2.0, the switch statement).

ghost use Rattle.std.specs.Prelude.{◌≡◌, map, option_map, IfOk};
ghost use Rattle.cmm_static_semantics.specs.Scopes.{senses};
ghost use Rattle.cmm_lower.specs.inside.Ranges.{range_between};
ghost use Rattle.cmm_elaboration.specs.Bodies as meaning;
ghost use Rattle.cmm_proc_scope.specs.Bodies.{scope_of_body};
ghost use Rattle.cmm_typing.specs.Fitting.{AreWords};

use cmm_ast::{Case as CaseTree, Expr, Range as RangeTree};
use cmm_items::Items;
use cmm_proc_scope::BodyNames;
use cmm_program::{Case, Range};
use cmm_typing::{Names, number_alone, wanted};
use cmm_words::Width;
use std::alloc::{AllocError, Global};

/// The width of a value, where it has one.
pub(crate) fn value_width<'a, N: Names>(names: &BodyNames<'a, N>, value: &Expr) -> Option<Width>
    requires { AreWords (senses (scope_of_body N.senses names.now)) }
    ensures { result ≡ meaning.value_width (scope_of_body N.senses names.now) value.now }
{
    match wanted(names, None, value) {
        Ok(bits) => Some(bits.width),
        Err(_) => None,
    }
}

/// The range from one number to another, where neither is broken.
fn range_from(from: Option<u64>, to: Option<u64>) -> Range
    ensures { result ≡ range_between from to }
{
    match (from, to) {
        (Some(from), Some(to)) => Range { from, to },
        _ => Range { from: 0, to: 0 },
    }
}

/// The values that a range of an arm is for.
fn range_of<'a, N: Names>(
    names: &BodyNames<'a, N>,
    width: Option<Width>,
    range: &RangeTree,
) -> Range
    requires { AreWords (senses (scope_of_body N.senses names.now)) }
    ensures { result ≡ meaning.range_of (scope_of_body N.senses names.now) width range.now }
{
    let from = number_alone(names, width, &range.from).ok();
    match &range.to {
        Some(last) => range_from(from, number_alone(names, width, last).ok()),
        None => range_from(from, from),
    }
}

/// The values that some ranges are for.
fn ranges_of<'a, N: Names>(
    alloc: Global,
    names: &BodyNames<'a, N>,
    width: Option<Width>,
    ranges: &[RangeTree],
) -> Result<Items<Range>, AllocError>
    requires { AreWords (senses (scope_of_body N.senses names.now)) }
    ensures { IfOk result (λ made. made ≡ map (meaning.range_of (scope_of_body N.senses names.now) width) ranges.now) }
{
    let mut made = Items::new(alloc);
    for range in ranges {
        made.push(range_of(names, width, range))?;
    }
    Ok(made)
}

/// The values that an arm is for, of a width. Fails only for want of memory.
#[inline(never)]
pub(crate) fn case_of<'a, N: Names>(
    alloc: Global,
    names: &BodyNames<'a, N>,
    width: Option<Width>,
    case: &CaseTree,
) -> Result<Case, AllocError>
    requires { AreWords (senses (scope_of_body N.senses names.now)) }
    ensures { IfOk result (λ made. made ≡ meaning.case_of (scope_of_body N.senses names.now) width case.now) }
{
    match case {
        CaseTree::Ranges(ranges) => Ok(Case::In(ranges_of(
            alloc,
            names,
            width,
            ranges.as_slice(),
        )?)),
        CaseTree::Default => Ok(Case::Default),
    }
}
