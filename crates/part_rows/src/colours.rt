//! Lists of nodes, and colours of conflicts.

ghost use Rattle.std.specs.Bool.{OnTrue};
ghost use Rattle.std.specs.Prelude.{◌≡◌, ◌<◌, true};
ghost use Rattle.cmm_ilist.specs.NodeLists.{is_in_some};

use crate::text::{asked, small_of};
use cmm_colour::{Conflicts, Hint, colour};
use cmm_ilist::Lists;
use std::alloc::AllocError;
use std::io;

/// Does what the words say with lists of nodes, as many nodes and lists as the first two words say, and prints what each tells, and then the lists.
pub fn print_lists(rt: &(impl AllocGlobal + Print), text: &str) -> io::Result<()> {
    let (nodes, rest) = text.split_once(' ').unwrap_or((text, ""));
    let (count, words) = rest.split_once(' ').unwrap_or((rest, ""));
    let mut lists = Lists::new(rt.alloc(), small_of(nodes), small_of(count))?;
    for word in words.split(' ') {
        let (what, rest) = asked(word);
        match what {
            "push" => push(&mut lists, rest),
            "unlink" => unlink(&mut lists, small_of(rest)),
            "after" => print!(rt; " {:?}", after(&lists, small_of(rest)))?,
            "of" => print_list_of(rt, &lists, small_of(rest))?,
            _ => {}
        }
    }
    for list in 0..small_of(count) {
        print_list(rt, &lists, list)?;
    }
    Ok(())
}

/// Whether a number is a node in some list.
fn is_linked(lists: &Lists, node: u32) -> bool
    ensures { OnTrue result (is_in_some node lists.now.lists ≡ true) }
{
    (node as usize) < lists.node_count() && lists.list_of(node).is_some()
}

/// Puts a node at the end of a list, `list,node`, if it is in none.
fn push(lists: &mut Lists, word: &str) {
    let (list, node) = word.split_once(',').unwrap_or(("", ""));
    let list = small_of(list);
    let node = small_of(node);
    let is_there = (list as usize) < lists.list_count() && (node as usize) < lists.node_count();
    if is_there && lists.list_of(node).is_none() {
        lists.push_back(list, node);
    }
}

/// Takes a node out of its list, if it is in one.
fn unlink(lists: &mut Lists, node: u32) {
    if is_linked(lists, node) {
        lists.unlink(node);
    }
}

/// The node behind a node, if it is in a list.
fn after(lists: &Lists, node: u32) -> Option<u32> {
    if is_linked(lists, node) {
        lists.after(node)
    } else {
        None
    }
}

fn print_list_of(rt: &impl Print, lists: &Lists, node: u32) -> io::Result<()> {
    if (node as usize) < lists.node_count() {
        print!(rt; " {:?}", lists.list_of(node))?;
    }
    Ok(())
}

/// Prints the nodes of a list from the first on.
fn print_list(rt: &impl Print, lists: &Lists, list: u32) -> io::Result<()> {
    if (list as usize) >= lists.list_count() {
        return print!(rt; " none");
    }
    print!(rt; " [")?;
    let mut next = lists.front(list);
    for _ in 0..lists.node_count() {
        let Some(node) = next else {
            break;
        };
        print!(rt; " {node}")?;
        next = after(lists, node);
    }
    print!(rt; " ]")
}

/// Colours nodes by the first word's count of colours, as many nodes as the second says, and prints what each conflicts with and its colour. Of the other words
/// `a-b` joins two nodes, `uses:a,n` says how often a node is used and `suits:a,c` which colour suits it.
pub fn print_colours(rt: &(impl AllocGlobal + Print), text: &str) -> io::Result<()> {
    let (k, rest) = text.split_once(' ').unwrap_or((text, ""));
    let (nodes, words) = rest.split_once(' ').unwrap_or((rest, ""));
    let mut conflicts = Conflicts::new(rt.alloc(), small_of(nodes))?;
    let none = Hint {
        uses: 0,
        preferred: None,
    };
    let mut hints = vec![in rt.alloc(); none; small_of(nodes) as usize]?;
    for word in words.split(' ') {
        match word.split_once('-') {
            Some((a, b)) => join(&mut conflicts, small_of(a), small_of(b))?,
            None => hint(&mut hints, word),
        }
    }
    let colours = colour(rt.alloc(), &conflicts, small_of(k), &hints)?;
    for node in 0..conflicts.count() {
        print!(rt; " {:?}", conflicts.neighbours(node))?;
        print!(rt; "={:?}", colours.of(node))?;
    }
    Ok(())
}

/// Joins two nodes, if they may be joined.
fn join(conflicts: &mut Conflicts, a: u32, b: u32) -> Result<(), AllocError> {
    if a < conflicts.count() && b < conflicts.count() && a != b {
        conflicts.add(a, b)?;
    }
    Ok(())
}

/// Takes what a word says of a node into its hint.
fn hint(hints: &mut Vec<Hint>, word: &str) {
    let (what, rest) = asked(word);
    let (node, number) = rest.split_once(',').unwrap_or(("", ""));
    if let Some(hint) = hints.get_mut(small_of(node) as usize) {
        match what {
            "uses" => hint.uses = small_of(number),
            "suits" => hint.preferred = Some(small_of(number)),
            _ => {}
        }
    }
}
