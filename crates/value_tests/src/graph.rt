//! Graphs in and out of range: what no text has, since the graphs that are made are in range.

use cmm_graph::*;
use cmm_items::Items;
use cmm_program::Target;
use cmm_words::{Constant, Width};
use std::alloc::{AllocError, Global};
use std::test::Fail;

/// Nodes of one token each.
macro_rules! nodes {
    ($alloc:expr; $($kind:expr),* $(,)?) => {
        Items::from_vec(vec![in $alloc; $(Node { tokens: 1, kind: $kind }),*]?)
    };
}

fn at(number: u32) -> NodeId {
    NodeId { number }
}

fn variable(number: u32) -> Operand {
    Operand::Local(Local::Variable(Variable { number }))
}

fn temporary(number: u32) -> Operand {
    Operand::Local(Local::Temporary(Temporary { number }))
}

fn set(number: u32) -> Destination {
    Destination::Target(Target::Variable(number, Width::W64))
}

/// A graph with one variable, one temporary, an assignment, and a landing of a continuation.
fn assigning(
    alloc: Global,
    tokens: u32,
    to: Destination,
    value: Rvalue,
    next: NodeId,
) -> Result<Graph, AllocError> {
    let mut nodes = nodes![alloc;
        NodeKind::Entry { formals: Items::new(alloc), next: at(2) },
        NodeKind::CopyIn { to: Items::new(alloc), next: at(2) },
        NodeKind::Stop,
    ];
    let kind = NodeKind::Assign { to, value, next };
    nodes.push(Node { tokens, kind })?;
    Ok(Graph {
        variables: 1,
        temporaries: 1,
        nodes,
        first: at(0),
        continuations: Items::from_slice(alloc, &[at(1)])?,
    })
}

#[test]
fn graphs_out_of_range(rt: HostRuntime) -> Result<(), Fail> {
    let alloc = rt.alloc();
    let copy = Rvalue::Copy(temporary(0));
    let right = assigning(alloc, 1, set(0), copy, at(2))?;
    assert!(rt; right.valid());
    let long = Operand::Constant(Constant::Number(256, Width::W8));
    let k1 = Operand::Continuation(ContinuationId { number: 1 });
    let load = Rvalue::Load {
        width: Width::W64,
        aligned: 3,
        address: variable(0),
    };
    let wrong: [(&str, u32, u32, Rvalue, u32); 10] = [
        ("a node without a token", 0, 0, copy, 2),
        ("to a variable past the last", 1, 1, copy, 2),
        (
            "of a temporary past the last",
            1,
            0,
            Rvalue::Copy(temporary(1)),
            2,
        ),
        (
            "of a variable past the last",
            1,
            0,
            Rvalue::Copy(variable(1)),
            2,
        ),
        (
            "of a number of nine bits in eight",
            1,
            0,
            Rvalue::Copy(long),
            2,
        ),
        ("of a continuation past the last", 1, 0, Rvalue::Copy(k1), 2),
        ("a load aligned to 3 bytes", 1, 0, load, 2),
        ("to a node past the last", 1, 0, copy, 4),
        ("to an Entry", 1, 0, copy, 0),
        ("to a CopyIn", 1, 0, copy, 1),
    ];
    for (mistake, tokens, to, value, next) in wrong {
        let graph = assigning(alloc, tokens, set(to), value, at(next))?;
        assert!(rt; !graph.valid(), "{mistake}");
    }
    Ok(())
}
