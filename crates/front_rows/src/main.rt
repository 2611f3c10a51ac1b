//! Prints what the front end makes of each line of its input, which is a unit, or units divided by tabs.
//!
//! It is the test of `cmm_parser`, `cmm_typing` and `cmm_static` on texts, as data: `stdin` has a case a line. The word before the first tab says what is
//! printed:
//!
//! - `tree`: the syntax tree of the unit, or the fault of a text that is none. There are units with each alternative of the grammar and each optional comma,
//!   and texts that are no units; `stdout` has what `tools/parser_oracle.py` prints for them, a recognizer that knows nothing of the parser.
//! - `names`: the expression of each constant of the unit with names resolved as docs/LANGUAGE.md says, worked out by hand: the width of a value or `bool`, and the
//!   expression, or which rule is broken and where. Names mean what `MEANINGS` says.
//! - `graphs`: the graphs of the procedures of the units, and what is live in them, worked out by hand: a node is laid before those that lead to it, behind those
//!   of labels and continuations.
//! - none of these: the fault that docs/LANGUAGE.md names of the units, worked out by hand: the number of the unit, from 0, line, column, and the rule. Of units that break none,
//!   how many tokens they have, and then of each procedure how many its statements have of its own, as `tools/token_counts.py` counts them in the texts.
//!
//! - `reading`: trees and names. `units`: the units of a line. `checking`: faults and counts. `graphs`: graphs and live sets. `graph_text`: a graph as text.
#![tactic(auto)]

ghost use Rattle.cmm_typing.specs.Fitting.{AreWords};
ghost use Rattle.cmm_typing.specs.Meanings.{senses_of};

mod checking;
mod graph_text;
mod graphs;
mod reading;
mod units;

use checking::{Shown, print_units};
use cmm_typing::Scope;
use reading::{Read, print_unit, scope};
use std::io;

fn main(rt: HostRuntime) -> io::Result<()> {
    let scope = scope(rt.alloc())?;
    if !scope.fits() {
        return println!(rt; "a constant does not fit its width");
    }
    for line in rt.lines(rt.alloc()) {
        print_line(&rt, &scope, line?.as_str())?;
    }
    Ok(())
}

fn print_line(rt: &(impl AllocGlobal + Print), scope: &Scope, line: &str) -> io::Result<()>
    requires { AreWords (senses_of scope.now.names) }
{
    match line.split_once('\t') {
        Some(("tree", unit)) => print_unit(rt, scope, unit, Read::Tree),
        Some(("names", unit)) => print_unit(rt, scope, unit, Read::Constants),
        Some(("graphs", units)) => print_units(rt, units, Shown::Graphs),
        _ => print_units(rt, line, Shown::Counts),
    }
}
