//! What is read of a script, printed.

use crate::text::bytes_of;
use cmm_script::{Block, Command, Script, Value, parse_script};
use std::io;

/// Prints the blocks of a script, or the rule that it breaks first, and the line.
pub fn print_script(rt: &(impl AllocGlobal + Print), text: &str) -> io::Result<()> {
    let bytes = bytes_of(rt.alloc(), text)?;
    match parse_script(rt.alloc(), &bytes) {
        Ok(script) => print_blocks(rt, &script),
        Err(fault) => print!(rt; " {fault}"),
    }
}

/// Prints the code of each block, and its commands.
fn print_blocks(rt: &impl Print, script: &Script) -> io::Result<()> {
    if script.blocks.as_slice().is_empty() {
        return print!(rt; " no block");
    }
    for block in script.blocks.as_slice() {
        match block.code {
            Some(code) => print!(rt; " at {code}")?,
            None => print!(rt; " other")?,
        }
        print_commands(rt, block)?;
    }
    Ok(())
}

/// Prints each command of a block behind its line.
fn print_commands(rt: &impl Print, block: &Block) -> io::Result<()> {
    for (command, line) in block.commands.as_slice().iter().zip(block.lines.as_slice()) {
        print!(rt; " {line}:")?;
        print_command(rt, command)?;
    }
    Ok(())
}

/// Prints the word of a command, and its operands.
fn print_command(rt: &impl Print, command: &Command) -> io::Result<()> {
    match command {
        Command::List => print!(rt; "list"),
        Command::Youngest => print!(rt; "youngest"),
        Command::Next => print!(rt; "next"),
        Command::Desc(token) => print!(rt; "desc {token}"),
        Command::Seek(token, value) => {
            print!(rt; "seek {token}")?;
            print_value(rt, *value)
        }
        Command::Var(number) => print!(rt; "var {number}"),
        Command::Set(number, value) => {
            print!(rt; "set {number}")?;
            print_value(rt, *value)
        }
        Command::Poke(label, offset, value) => {
            print!(rt; "poke {label:?} {offset}")?;
            print_value(rt, *value)
        }
        Command::Return(exit, values) => {
            print!(rt; "return {exit}")?;
            print_values(rt, values.as_slice())
        }
        Command::Unwind(exit, values) => {
            print!(rt; "unwind {exit}")?;
            print_values(rt, values.as_slice())
        }
        Command::Cut(to, values) => {
            print!(rt; "cut")?;
            print_value(rt, *to)?;
            print_values(rt, values.as_slice())
        }
        Command::Stop => print!(rt; "stop"),
    }
}

fn print_values(rt: &impl Print, values: &[Value]) -> io::Result<()> {
    for value in values {
        print_value(rt, *value)?;
    }
    Ok(())
}

/// Prints a number, or which value of the yield is meant.
fn print_value(rt: &impl Print, value: Value) -> io::Result<()> {
    match value {
        Value::Number(number) => print!(rt; " {number}"),
        Value::Yielded(number) => print!(rt; " ${number}"),
    }
}
