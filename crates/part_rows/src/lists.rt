//! Lists, sets, moves and graphs.

use crate::text::{asked, number_of, numbers_of, small_of};
use cmm_bitset::BitSet;
use cmm_digraph::{is_graph, peel};
use cmm_items::Items;
use cmm_moves::{Move, are_apart, is_mentioned, sequence};
use std::alloc::{AllocError, Global};
use std::io;

/// Does what the words say with a list that is empty at first, and prints what each tells, and then the list.
pub fn print_items(rt: &(impl AllocGlobal + Print), text: &str) -> io::Result<()> {
    let mut items = Items::new(rt.alloc());
    for word in text.split(' ') {
        let (what, rest) = asked(word);
        match what {
            "get" => print!(rt; " {:?}", items.get(small_of(rest) as usize))?,
            "last" => print!(rt; " {:?}", items.last())?,
            "most" => print!(rt; " {:?}", items.iter().copied().max())?,
            "empty" => print!(rt; " {}", items.is_empty())?,
            "pop" => print!(rt; " {:?}", items.pop())?,
            _ => change(rt.alloc(), &mut items, what, rest)?,
        }
    }
    print!(rt; " {items:?} {}", items.len())
}

/// Changes a list as a word says.
fn change(alloc: Global, items: &mut Items<u64>, what: &str, rest: &str) -> Result<(), AllocError> {
    match what {
        "push" => items.push(number_of(rest))?,
        "append" => items.append(Items::from_vec(numbers_of(alloc, rest)?))?,
        "truncate" => items.truncate(small_of(rest) as usize),
        "first" => {
            if !items.is_empty() {
                items.set(0, number_of(rest));
            }
        }
        _ => {}
    }
    Ok(())
}

/// Does what the words say with a set of numbers below the first word, and prints what each tells, and then the set.
pub fn print_set(rt: &(impl AllocGlobal + Print), text: &str) -> io::Result<()> {
    let (size, words) = text.split_once(' ').unwrap_or((text, ""));
    let mut set = BitSet::new(rt.alloc(), small_of(size))?;
    for word in words.split(' ') {
        let (what, rest) = asked(word);
        match what {
            "join" => print_join(rt, &mut set, rest)?,
            "clear" => set.clear(),
            _ => print_member(rt, &mut set, what, small_of(rest))?,
        }
    }
    print!(rt; " {set:?}")
}

/// Joins a set with that of the numbers in a word, and prints whether it grew.
fn print_join(rt: &(impl AllocGlobal + Print), set: &mut BitSet, word: &str) -> io::Result<()> {
    let mut other = BitSet::new(rt.alloc(), set.size())?;
    for number in word.split(',') {
        put(&mut other, small_of(number));
    }
    if set.size() != other.size() {
        return print!(rt; " of other sizes");
    }
    print!(rt; " {}", set.join(&other))
}

/// Puts a number into a set, if the set may have it.
fn put(set: &mut BitSet, number: u32) {
    if number < set.size() {
        set.insert(number);
    }
}

/// Does with one number of a set what a word says.
fn print_member(rt: &impl Print, set: &mut BitSet, what: &str, number: u32) -> io::Result<()> {
    if number >= set.size() {
        return Ok(());
    }
    match what {
        "has" => print!(rt; " {}", set.has(number)),
        "insert" => {
            set.insert(number);
            Ok(())
        }
        "remove" => {
            set.remove(number);
            Ok(())
        }
        _ => Ok(()),
    }
}

/// Prints what five places have after moves `to=from` at once, by way of a sixth. At first each has ten times its number.
pub fn print_moves(rt: &(impl AllocGlobal + Print), text: &str) -> io::Result<()> {
    let moves = moves_of(rt.alloc(), text)?;
    if !are_apart(&moves) || is_mentioned(5, &moves) {
        return print!(rt; " none");
    }
    let mut places = vec![in rt.alloc(); 0, 10, 20, 30, 40, 50]?;
    for step in sequence(rt.alloc(), &moves, 5)?.as_slice() {
        let number = places.get(step.from as usize).copied().unwrap_or(0);
        if let Some(place) = places.get_mut(step.to as usize) {
            *place = number;
        }
    }
    places.truncate(5);
    print!(rt; " {places:?}")
}

fn moves_of(alloc: Global, text: &str) -> Result<Vec<Move>, AllocError> {
    let mut moves = Vec::new(alloc);
    for word in text.split(' ') {
        if let Some((to, from)) = word.split_once('=') {
            let step = Move {
                to: small_of(to),
                from: small_of(from),
            };
            moves.push(step)?;
        }
    }
    Ok(moves)
}

/// Prints the order in which nodes are peeled off a graph, and those that are left. A word has the nodes that one mentions, or `-`.
pub fn print_peeled(rt: &(impl AllocGlobal + Print), text: &str) -> io::Result<()> {
    let graph = graph_of(rt.alloc(), text)?;
    if !is_graph(&graph) {
        return print!(rt; " none");
    }
    let peeled = peel(rt.alloc(), &graph)?;
    print!(rt; " {:?} {:?}", peeled.order, peeled.left)
}

fn graph_of(alloc: Global, text: &str) -> Result<Vec<Items<usize>>, AllocError> {
    let mut graph = Vec::new(alloc);
    for word in text.split(' ') {
        if !word.is_empty() {
            graph.push(nodes_of(alloc, word)?)?;
        }
    }
    Ok(graph)
}

fn nodes_of(alloc: Global, word: &str) -> Result<Items<usize>, AllocError> {
    let mut nodes = Items::new(alloc);
    for number in &numbers_of(alloc, word)? {
        nodes.push(*number as usize)?;
    }
    Ok(nodes)
}
