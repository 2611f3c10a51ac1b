//! What the lines of the input try.

use crate::code::print_tried;
use crate::colours::{print_colours, print_lists};
use crate::fakes::{print_lent, print_lent_whole, print_sink, print_source};
use crate::files::print_files;
use crate::lists::{print_items, print_moves, print_peeled, print_set};
use crate::placements::print_placement;
use crate::readings::{
    print_generated, print_kind, print_name, print_number, print_rule, print_tokens, print_width,
};
use crate::scripts::print_script;
use crate::steps::{print_access, print_fetch, print_memory, print_run, print_step, print_word};
use std::io;

/// Prints what comes of a case, behind the line that says it.
pub fn print_case(rt: &(impl AllocGlobal + Print), what: &str, rest: &str) -> io::Result<()> {
    match what {
        "items" => print_items(rt, rest),
        "set" => print_set(rt, rest),
        "moves" => print_moves(rt, rest),
        "peel" => print_peeled(rt, rest),
        "ilist" => print_lists(rt, rest),
        "colour" => print_colours(rt, rest),
        "rule" => print_rule(rt, rest),
        "width" => print_width(rt, rest),
        "name" => print_name(rt, rest),
        "number" => print_number(rt, rest),
        "kind" => print_kind(rt, rest),
        "tokens" => print_tokens(rt, rest),
        "script" => print_script(rt, rest),
        "generated" => print_generated(rt, rest),
        "source" => print_source(rt, rest),
        "sink" => print_sink(rt, rest),
        "lent" => print_lent(rt, rest),
        "lent_whole" => print_lent_whole(rt, rest),
        "files" => print_files(rt, rest),
        "word" => print_word(rt, rest),
        "step" => print_step(rt, rest),
        "access" => print_access(rt, rest),
        "fetch" => print_fetch(rt, rest),
        "run" => print_run(rt, rest),
        "memory" => print_memory(rt, rest),
        "placed" => print_placement(rt, rest),
        _ => print_tried(rt, what, rest),
    }
}
