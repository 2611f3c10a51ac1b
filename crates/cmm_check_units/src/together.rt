//! What units break together, where none breaks a rule of its own.

ghost use Rattle.std.specs.Prelude.{◌≡◌, ◌&&◌, nat_le, List, Some, length, map};
ghost use Rattle.cmm_static_semantics.specs.Declarations.{NamedUnit};
ghost use Rattle.cmm_static_semantics.specs.Faults.{at_beginning, fault_of_all};
ghost use Rattle.cmm_static_semantics.specs.Linking.{program_of};
ghost use Rattle.cmm_check_units.specs.inside.Flat.{flat_unit, some_starts};
ghost use Rattle.cmm_check_units.specs.inside.Totals.{AreSums, are_within};
ghost use Rattle.cmm_check_units.specs.inside.Units.{unit_flat};
ghost use Rattle.cmm_program.specs.Limits.{register_limit, unit_limit};

use crate::linking::starts;
use crate::sums::Sums;
use crate::unit_names::UnitNames;
use cmm_linkage::Linkage;
use cmm_rules::Rule;
use cmm_static_semantics::Fault;

/// How many units a program may have.
const UNITS_LIMIT: usize = 256;

/// How many global registers they may have.
const REGISTERS_LIMIT: usize = 256;

/// Whether some unit exports a procedure without formals as `main`.
fn some_starts<'a>(units: &[UnitNames<'a>]) -> bool
    ensures { result ≡ some_starts (map unit_flat units.now) }
{
    for unit in units {
        if starts(&unit.table, unit.exports.as_slice()) {
            return true;
        }
    }
    false
}

/// Whether no limit over all units is passed.
fn are_within<'a>(units: &[UnitNames<'a>], linkage: &Linkage<'a>, sums: &Sums) -> bool
    ensures { result ≡ (nat_le (length units.now) unit_limit && nat_le (length linkage.now.registers) register_limit && are_within sums.now) }
{
    let few_units = units.len() <= UNITS_LIMIT;
    let few_registers = linkage.register_count() <= REGISTERS_LIMIT;
    few_units && few_registers && sums.are_within()
}

/// A rule that all units break together, at the beginning of the first.
fn at_beginning(rule: Rule) -> Fault
    ensures { Some result ≡ at_beginning rule }
{
    Fault {
        rule,
        unit: 0,
        line: 1,
        column: 1,
    }
}

/// The fault of all units together: that none exports a procedure without formals as `main`, rule 36, or else that a limit over all units
/// is passed, rule 40.
pub(crate) fn fault_of_all<'a>(
    units: &[UnitNames<'a>],
    linkage: &Linkage<'a>,
    sums: &Sums,
) -> Option<Fault>
    ensures { (us : List NamedUnit) → map unit_flat units.now ≡ map flat_unit us → linkage.now ≡ program_of us → AreSums linkage.now us sums.now →
        result ≡ fault_of_all us }
{
    if !some_starts(units) {
        return Some(at_beginning(Rule::NoMain));
    }
    if !are_within(units, linkage, sums) {
        return Some(at_beginning(Rule::Limit));
    }
    None
}
