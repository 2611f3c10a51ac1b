//! Which fault is named of units, and what their program has.

use crate::graphs::print_graphs;
use crate::units::{NoUnit, units_of};
use cmm_ast::Unit;
use cmm_program::{Arm, Form, Program, Statement};
use cmm_static::{StaticFault, check};
use cmm_static_semantics::Fault;
use std::io;

/// More units than a case has.
const UNITS: usize = 16;

/// What is printed of units that break no rule.
#[derive(Clone, Copy)]
pub(crate) enum Shown {
    Counts,
    Graphs,
}

/// Prints the fault that is named of the units of a line, or what is shown of those that break no rule.
pub(crate) fn print_units(
    rt: &(impl AllocGlobal + Print),
    line: &str,
    shown: Shown,
) -> io::Result<()> {
    let units = match units_of(rt.alloc(), line) {
        Ok(units) if units.len() < UNITS => units,
        Ok(_) => return println!(rt; "too many units"),
        Err(NoUnit) => return println!(rt; "no unit"),
    };
    match check(rt.alloc(), &units) {
        Ok(program) => match shown {
            Shown::Counts => print_counts(rt, &units, &program),
            Shown::Graphs => print_graphs(rt, &program),
        },
        Err(StaticFault::At(fault)) => print_rule(rt, fault),
        Err(StaticFault::Memory) => println!(rt; "out of memory"),
    }
}

/// Prints where a rule is broken, and which.
fn print_rule(rt: &impl Print, fault: Fault) -> io::Result<()> {
    let Fault {
        rule,
        unit,
        line,
        column,
    } = fault;
    println!(rt; "{unit}:{line}:{column}: {rule}")
}

/// Prints how many tokens units have, and of each procedure of their program how many its statements have of its own.
fn print_counts(rt: &impl Print, units: &[Unit], program: &Program) -> io::Result<()> {
    print!(rt; "accepted, {} tokens", token_count(units))?;
    for proc in program.procs.as_slice() {
        let inside = tokens_in(proc.body.as_slice());
        print!(rt; "; {:?} {} of {}", proc.name, inside, proc.tokens)?;
    }
    println!(rt; "")
}

/// How many tokens some units have. The last place of each is its end.
fn token_count(units: &[Unit]) -> usize {
    let mut count: usize = 0;
    for unit in units {
        count = count.saturating_add(unit.places.len().saturating_sub(1));
    }
    count
}

/// How many tokens some statements have, with those in the blocks inside them.
#[cycle(statements)]
fn tokens_in(statements: &[Statement]) -> u32 {
    let mut count: u32 = 0;
    for statement in statements {
        let inside = tokens_inside(&statement.form);
        count = count
            .saturating_add(statement.tokens)
            .saturating_add(inside);
    }
    count
}

/// How many stand in the blocks of a statement.
#[cycle(statements)]
fn tokens_inside(form: &Form) -> u32 {
    match form {
        Form::If {
            then,
            otherwise,
            ..
        } => {
            let first = tokens_in(then.as_slice());
            let second = tokens_in(otherwise.as_slice());
            first.saturating_add(second)
        }
        Form::Switch { arms, .. } => tokens_in_arms(arms.as_slice()),
        Form::Span(body) => tokens_in(body.as_slice()),
        _ => 0,
    }
}

/// How many stand in the arms of a switch.
#[cycle(statements)]
fn tokens_in_arms(arms: &[Arm]) -> u32 {
    let mut count: u32 = 0;
    for arm in arms {
        count = count.saturating_add(tokens_in(arm.body.as_slice()));
    }
    count
}
