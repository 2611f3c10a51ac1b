//! How many instructions nodes have, and which.

use crate::code::nodes::Node;
use crate::code::places::PlaceKind;
use crate::code::trying::{Kinds, count_of, words_of};
use crate::code::{BINARY, COMPARISONS, UNARY};
use cmm_words::Width;
use std::io;

/// Prints how many instructions each node of a width has.
pub fn print_counts(rt: &(impl AllocGlobal + Print), width: Width) -> io::Result<()> {
    print!(rt; " copy")?;
    print_count(rt, Node::Copy)?;
    for operator in &BINARY {
        print!(rt; " {operator:?}")?;
        print_count(rt, Node::Binary(*operator, width))?;
    }
    for comparison in &COMPARISONS {
        print!(rt; " {comparison:?}")?;
        print_count(rt, Node::Comparison(*comparison, width))?;
        print_count(rt, Node::Decision(*comparison, width))?;
    }
    for operator in &UNARY {
        print!(rt; " {operator:?}")?;
        print_count(rt, Node::Unary(*operator, width))?;
    }
    print!(rt; " extended")?;
    print_count(rt, Node::Extended(width, Width::W64))?;
    print!(rt; " low")?;
    print_count(rt, Node::Low(Width::W64, width))?;
    print!(rt; " load")?;
    print_count(rt, Node::Load(width, 8))?;
    print_count(rt, Node::Load(width, 1))?;
    print!(rt; " store")?;
    print_count(rt, Node::Store(width, 8))?;
    print_count(rt, Node::Store(width, 1))
}

/// Prints how many instructions a node has where its operands and its destination are registers, slots that an immediate reaches, and slots that none
/// reaches.
fn print_count(rt: &(impl AllocGlobal + Print), node: Node) -> io::Result<()> {
    for kind in [PlaceKind::Other, PlaceKind::Near, PlaceKind::Far] {
        print!(rt; " {}", count_of(rt.alloc(), node, Kinds::all(kind))?)?;
    }
    Ok(())
}

/// Prints the code of each operator and comparison at a width, on other registers: the left operand in 12, the right one in 31, the result in 15.
pub fn print_code(rt: &(impl AllocGlobal + Print), width: Width) -> io::Result<()> {
    for operator in &BINARY {
        print!(rt; " {operator:?}")?;
        print_words(rt, Node::Binary(*operator, width))?;
    }
    for comparison in &COMPARISONS {
        print!(rt; " {comparison:?}")?;
        print_words(rt, Node::Comparison(*comparison, width))?;
    }
    for operator in &UNARY {
        print!(rt; " {operator:?}")?;
        print_words(rt, Node::Unary(*operator, width))?;
    }
    Ok(())
}

/// Prints the words of the code of a node.
fn print_words(rt: &(impl AllocGlobal + Print), node: Node) -> io::Result<()> {
    for word in &words_of(rt.alloc(), node, Kinds::all(PlaceKind::Other))? {
        print!(rt; " {word:08x}")?;
    }
    Ok(())
}
