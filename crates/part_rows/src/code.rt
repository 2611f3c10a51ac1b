//! The code of nodes, which is made, finished and run instruction by instruction. All numbers of these cases are hexadecimal.
//!
//! - `places`: operands and destinations of each kind.
//! - `nodes`: what is tried, and its code.
//! - `machine`: finished code that runs.
//! - `trying`: one node tried with operands and a destination of one kind each, or of all kinds.
//! - `frames`: a call, with its frames. `switches`: a switch of many arms.
//! - `counts`: how many instructions nodes have, and which.

mod counts;
mod frames;
mod machine;
mod nodes;
mod places;
mod switches;
mod trying;

use crate::code::counts::{print_code, print_counts};
use crate::code::frames::{Layout, run_call};
use crate::code::nodes::Node;
use crate::code::switches::{MOST, run_switch};
use crate::code::trying::{Outcome, try_all};
use crate::text::hexadecimals_of;
use cmm_words::{Cmp, Op1, Op2, Width, apply1, apply2, compare, extend, low};
use std::io;

/// Every operator on two words.
pub static BINARY: [Op2; 17] = [
    Op2::Add,
    Op2::Sub,
    Op2::Mul,
    Op2::And,
    Op2::Or,
    Op2::Xor,
    Op2::Shl,
    Op2::Shrl,
    Op2::Shra,
    Op2::Rotl,
    Op2::Rotr,
    Op2::Divu,
    Op2::Modu,
    Op2::Div,
    Op2::Mod,
    Op2::Quot,
    Op2::Rem,
];

/// Every comparison.
pub static COMPARISONS: [Cmp; 10] = [
    Cmp::Eq,
    Cmp::Ne,
    Cmp::Lt,
    Cmp::Le,
    Cmp::Gt,
    Cmp::Ge,
    Cmp::Ltu,
    Cmp::Leu,
    Cmp::Gtu,
    Cmp::Geu,
];

/// Both operators on one word.
pub static UNARY: [Op1; 2] = [Op1::Com, Op1::Neg];

/// Every width.
static WIDTHS: [Width; 4] = [Width::W8, Width::W16, Width::W32, Width::W64];

/// Prints what comes of code that is tried as a line says.
pub fn print_tried(rt: &(impl AllocGlobal + Print), what: &str, text: &str) -> io::Result<()> {
    let numbers = hexadecimals_of(rt.alloc(), text)?;
    print_case(rt, what, &numbers)
}

/// Prints what comes of code that is tried on these numbers.
fn print_case(rt: &(impl AllocGlobal + Print), what: &str, numbers: &[u64]) -> io::Result<()> {
    let width = Width::from_bits(numbers.first().copied().unwrap_or(0)).unwrap_or(Width::W64);
    match (what, numbers) {
        ("binary", [_, left, right]) => print_binary(rt, width, *left, *right),
        ("compare", [_, left, right]) => print_comparisons(rt, width, *left, *right),
        ("unary", [_, word]) => print_unary(rt, width, *word),
        ("copy", [_, word]) => print_outcome(rt, Node::Copy, *word, 0, Some(*word)),
        ("load", [_, aligned, address]) => {
            print_outcome(rt, Node::Load(width, small(*aligned)), *address, 0, None)
        }
        ("store", [_, aligned, address, word]) => {
            print_stored(rt, Node::Store(width, small(*aligned)), *address, *word)
        }
        ("call", [layout, exit, stack]) => print_call(
            rt,
            layout_of(*layout),
            small(*exit),
            small(*stack),
        ),
        ("switch", [count, values @ ..]) => print_switch(rt, small(*count), values),
        ("count", [_]) => print_counts(rt, width),
        ("code", [_]) => print_code(rt, width),
        _ => print!(rt; " no case"),
    }
}

/// The low 32 bits of a number.
fn small(number: u64) -> u32 {
    (number % 0x1_0000_0000) as u32
}

/// Prints what each operator gives on two words of a width.
fn print_binary(
    rt: &(impl AllocGlobal + Print),
    width: Width,
    left: u64,
    right: u64,
) -> io::Result<()> {
    if left > width.max() || right > width.max() {
        return print!(rt; " no words");
    }
    for operator in &BINARY {
        print!(rt; " {operator:?}")?;
        match apply2(*operator, width, left, right) {
            Some(own) => print_outcome(rt, Node::Binary(*operator, width), left, right, Some(own))?,
            None => print!(rt; " none")?,
        }
    }
    Ok(())
}

/// Prints what each comparison tells of two words of a width, as a number and by a branch.
fn print_comparisons(
    rt: &(impl AllocGlobal + Print),
    width: Width,
    left: u64,
    right: u64,
) -> io::Result<()> {
    if left > width.max() || right > width.max() {
        return print!(rt; " no words");
    }
    for comparison in &COMPARISONS {
        let own = u64::from(compare(*comparison, width, left, right));
        print!(rt; " {comparison:?}")?;
        print_outcome(
            rt,
            Node::Comparison(*comparison, width),
            left,
            right,
            Some(own),
        )?;
        print_outcome(rt, Node::Branch(*comparison, width), left, right, Some(own))?;
    }
    Ok(())
}

/// Prints what the operators on one word give, and the word at each width: with its sign at one that is not less, and its low bits at the others.
fn print_unary(rt: &(impl AllocGlobal + Print), width: Width, word: u64) -> io::Result<()> {
    if word > width.max() {
        return print!(rt; " no word");
    }
    for operator in &UNARY {
        let own = apply1(*operator, width, word);
        print!(rt; " {operator:?}")?;
        print_outcome(rt, Node::Unary(*operator, width), word, 0, Some(own))?;
    }
    for to in &WIDTHS {
        print!(rt; " {to:?}")?;
        if width.bits() <= to.bits() {
            let own = extend(width, *to, word);
            print_outcome(rt, Node::Extended(width, *to), word, 0, Some(own))?;
        } else {
            print_outcome(rt, Node::Low(width, *to), word, 0, Some(low(*to, word)))?;
        }
    }
    Ok(())
}

/// Prints the word that a node gives, or what else comes of it. Where the words have an answer of their own it is to be the same.
fn print_outcome(
    rt: &(impl AllocGlobal + Print),
    node: Node,
    left: u64,
    right: u64,
    own: Option<u64>,
) -> io::Result<()> {
    match try_all(rt.alloc(), node, left, right)? {
        Outcome::Word(word) if own.unwrap_or(word) == word => print!(rt; " {word:x}"),
        other => print!(rt; " {other:?}"),
    }
}

/// Prints the bytes round an address at which a word is stored.
fn print_stored(
    rt: &(impl AllocGlobal + Print),
    node: Node,
    address: u64,
    word: u64,
) -> io::Result<()> {
    match try_all(rt.alloc(), node, address, word)? {
        Outcome::Bytes(bytes) => {
            for byte in &bytes {
                print!(rt; " {byte:02x}")?;
            }
            Ok(())
        }
        other => print!(rt; " {other:?}"),
    }
}

/// The layout with a number.
fn layout_of(number: u64) -> Layout {
    match number {
        0 => Layout::Small,
        1 => Layout::Reach,
        2 => Layout::Before,
        3 => Layout::Behind,
        _ => Layout::Last,
    }
}

/// Prints what a call leaves.
fn print_call(
    rt: &(impl AllocGlobal + Print),
    layout: Layout,
    exit: u32,
    stack: u32,
) -> io::Result<()> {
    if exit >= 512 || stack > 0x1000_0000 {
        return print!(rt; " no call");
    }
    for word in &run_call(rt.alloc(), layout, exit, stack)? {
        print!(rt; " {word:x}")?;
    }
    Ok(())
}

/// Prints which arms of a switch are taken, for a count of arms.
fn print_switch(rt: &(impl AllocGlobal + Print), count: u32, values: &[u64]) -> io::Result<()> {
    if count > MOST {
        return print!(rt; " no switch");
    }
    for value in values {
        print!(rt; " {:x}", run_switch(rt.alloc(), count, *value)?)?;
    }
    Ok(())
}
