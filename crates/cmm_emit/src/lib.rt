//! From graphs and the locations of their locals to code: of nodes, of procedures, of units.
//!
//! `lay_program` emits the code of a program: the code with which a run begins, and that of each unit, by an assembler of its own, in which the procedures of
//! others are symbols that are filled in when units are joined. Each ends with the code with which a run ends for want of room in the stack, and that by which
//! it calls the client. The contract is that the joined code, in an image with the data of the program, is all that `cmm_yield_laws` requires of a program's
//! code, so that the image follows the program. The nodes of a graph name locals, procedures, labels and each other by numbers; here each number becomes what
//! code has for it: a location, an offset of the frame, a label. A node's body is the code of `cmm_select` and `cmm_calls` for it, and ends where the node
//! falls to: the successor that follows it in code, if nothing comes between. An error of a function that appends code is want of memory, and then a part of
//! the code may be there, unless its comment says otherwise.
//!
//! - `program`: `lay_program`. `units`: the code of each unit. `finishing`: the bytes of a unit, and the places in them. `start`: the code with which a run
//!   begins and ends, and that by which the client is called.
//! - `mentions`: what nodes name. `symbols`: the labels of what a unit names that is not in its code.
//! - `labels`: labels that are made one after another. `contexts`: the tables of each procedure. `outline`: those of a unit.
//! - `procedure_code`: the procedures of a unit. `node_code`: the order in which nodes stand in code.
//! - `context`: the tables by which nodes become code. `operand`: the operands of code for those of nodes.
//! - `body`: the code of each kind of node, but for how control comes to the node that it falls to. `assign`: that of assignments. `transfer`: that by
//!   which a procedure begins and is left. `calling`: that of calls, with the exits by which they come back. `yielding`: that of yields.
//! - `laws`: how many instructions nodes take.
#![tactic(auto)]

mod assign;
mod body;
mod calling;
mod context;
mod contexts;
mod finishing;
mod labels;
pub mod laws;
mod mentions;
mod node_code;
mod operand;
mod outline;
mod procedure_code;
mod program;
mod start;
mod symbols;
mod transfer;
mod units;
mod yielding;

pub use program::lay_program;
