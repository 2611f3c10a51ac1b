//! The sums over all units that have a limit.

ghost use Rattle.std.specs.Prelude.{◌≡◌, ◌-◌, ◌++◌, ◌∷◌, [], ℕ, nat_le, List, length, map, IfOk};
ghost use Rattle.cmm_static_semantics.specs.Declarations.{NamedUnit, procs_in, sum_of};
ghost use Rattle.cmm_static_semantics.specs.Items.{items_of};
ghost use Rattle.cmm_static_semantics.specs.Linking.{Program};
ghost use Rattle.cmm_static_semantics.specs.Scopes.{unit_senses};
ghost use Rattle.cmm_check_declarations.specs.DataEnds.{IsEnd, data_of};
ghost use Rattle.cmm_limits.specs.Capped.{capped};
ghost use Rattle.cmm_symbols.specs.Shown.{alone, thing_item};
ghost use Rattle.cmm_check_units.specs.inside.Totals.{AreSums, are_within};
ghost use Rattle.cmm_typing.specs.Fitting.{AreWords};

use cmm_ast::Unit;
use cmm_check_declarations::end_of_data;
use cmm_limits::{site_spans, site_variables};
use cmm_proc_scope::FlatUnit;
use cmm_symbols::{Numbers, Thing};
use cmm_typing::Names;
use std::alloc::{AllocError, Global};

/// How many tokens all units may have.
const TOKENS_LIMIT: u64 = 1_000_000;

/// How many procedures they may have.
const PROCEDURES_LIMIT: u64 = 65_535;

/// How many variables may stand at all call sites, each site with those of its procedure.
const SITE_VARIABLES_LIMIT: u64 = 8_000_000;

/// How many tokens may have a span at all call sites.
const SITE_SPANS_LIMIT: u64 = 1_000_000;

/// Of some units what the limits over all units count. What would be 2^64 or more is 2^64 - 1.
#[derive(Clone, Copy)]
pub(crate) struct Sums {
    pub tokens: u64,
    pub procedures: u64,
    /// For each call site the variables of its procedure.
    pub site_variables: u64,
    /// For each call site the tokens that have a span there.
    pub site_spans: u64,
    /// Where their data ends, laid down one after another; none where that is past its limit.
    pub data_end: Option<u64>,
}

fn is_within(sum: u64, limit: u64) -> bool
    ensures { result ≡ nat_le sum limit }
{
    sum <= limit
}

/// How many tokens a unit has. The last place is its end.
fn token_count(unit: &Unit) -> u64
    ensures { result ≡ capped (length unit.now.places - 1) }
{
    unit.places.len().saturating_sub(1) as u64
}

/// How many procedures stand in a unit.
fn proc_count<'a>(things: &[Thing<'a>]) -> Result<u64, AllocError>
    ensures { IfOk result (λ count. count ≡ capped (sum_of procs_in (map alone things.now))) }
{
    let numbers = Numbers::first().after(things)?;
    Ok(u64::from(numbers.procedures))
}

/// Where the data of some units ends with that of one more.
fn end_after<'a, N: Names>(names: &N, things: &[Thing<'a>], end: Option<u64>) -> Option<u64>
    requires { AreWords (N.senses names.now) }
    ensures { (place : ℕ) → IsEnd place [] end → IsEnd place (data_of (N.senses names.now) (map thing_item things.now)) result }
{
    match end {
        Some(place) => end_of_data(names, things, place),
        None => None,
    }
}

impl Sums {
    /// Those of no units.
    pub(crate) fn none() -> Sums
        ensures { (program : Program) → AreSums program [] result }
    {
        Sums {
            tokens: 0,
            procedures: 0,
            site_variables: 0,
            site_spans: 0,
            data_end: Some(0),
        }
    }

    /// Those with one more unit, whose names mean what `names` tells.
    pub(crate) fn with_unit<N: Names>(
        self,
        alloc: Global,
        names: &N,
        flat: &FlatUnit<'_>,
    ) -> Result<Sums, AllocError>
        requires { AreWords (N.senses names.now) }
        ensures { IfOk result (λ next. (program : Program) (before : List NamedUnit) (u : NamedUnit) → u.tree ≡ flat.now → u.items ≡ items_of flat.now →
            N.senses names.now ≡ unit_senses program u.entries → AreSums program before self → AreSums program (before ++ u ∷ []) next) }
    {
        let things = flat.things();
        let procedures = proc_count(things)?;
        let variables = site_variables(flat);
        let spans = site_spans(alloc, names, flat)?;
        Ok(Sums {
            tokens: self.tokens.saturating_add(token_count(flat.tree())),
            procedures: self.procedures.saturating_add(procedures),
            site_variables: self.site_variables.saturating_add(variables),
            site_spans: self.site_spans.saturating_add(spans),
            data_end: end_after(names, things, self.data_end),
        })
    }

    /// Whether none of them passes its limit.
    pub(crate) fn are_within(&self) -> bool
        ensures { result ≡ are_within self.now }
    {
        let tokens = is_within(self.tokens, TOKENS_LIMIT);
        let procedures = is_within(self.procedures, PROCEDURES_LIMIT);
        let data = self.data_end.is_some();
        let variables = is_within(self.site_variables, SITE_VARIABLES_LIMIT);
        let spans = is_within(self.site_spans, SITE_SPANS_LIMIT);
        tokens && procedures && data && variables && spans
    }
}
