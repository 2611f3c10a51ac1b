//! The graphs of a program, and what is live in them.

use crate::graph_text::Text;
use cmm_flow::flows;
use cmm_graph::Graph;
use cmm_live::{LiveSets, liveness};
use cmm_program::Program;
use std::alloc::AllocError;
use std::io;

/// Prints the graph of each procedure of a program, with what is live in it.
pub(crate) fn print_graphs(rt: &(impl AllocGlobal + Print), program: &Program) -> io::Result<()> {
    let Ok(graphs) = flows(rt.alloc(), program) else {
        return println!(rt; "out of memory");
    };
    for graph in graphs.as_slice() {
        print_graph(rt, graph)?;
    }
    Ok(())
}

/// Prints a graph, and in a line below it the locals that are live in front of each node, at each site, and on the cut exits of each site.
fn print_graph(rt: &(impl AllocGlobal + Print), graph: &Graph) -> io::Result<()> {
    print!(rt; "{}", Text(graph))?;
    // No procedure of a case has as many.
    if graph.variables < 1000 && graph.temporaries < 1000 {
        print_sets(rt, liveness(rt.alloc(), graph))
    } else {
        println!(rt; "too many locals")
    }
}

fn print_sets(rt: &impl Print, sets: Result<LiveSets, AllocError>) -> io::Result<()> {
    let Ok(sets) = sets else {
        return println!(rt; "out of memory");
    };
    let before = &sets.before;
    let sites = &sets.sites;
    let cuts = &sets.cuts;
    println!(rt; "{before:?} {sites:?} {cuts:?}")
}
