//! `parse_script`: from the bytes of a script to its blocks.

ghost use Rattle.std.specs.Prelude.{◌≡◌, ◌≤◌, ℕ, [], length, map, IfOk, IfErr};
ghost use Rattle.cmm_script.specs.inside.Building.{Leaves, Makes, with_head, with_last, with_line, with_words, blocks_after};
ghost use Rattle.cmm_script.specs.Faults.{ScriptFaultAt, IsFirstFault, IsScript, IsRefusal};
ghost use Rattle.cmm_script.specs.inside.Reading.{line_of as line_in_words};
ghost use Rattle.cmm_rules.specs.declared.rule.Rule.{Rule};
ghost use Rattle.cmm_script.specs.declared.fault.ScriptFault.{ScriptFault};
ghost use Rattle.cmm_script.specs.declared.script.Script.{Script};
ghost use Rattle.cmm_script.specs.Limits.{HasFewValues};
ghost use Rattle.cmm_script.specs.Spelling.{SpellsScript, has_code as has_code_in};
ghost use Rattle.cmm_script.specs.Words.{words_in, said_in};

use crate::fault::{ScriptFault, Unread};
use crate::line::{Line, line_of};
use crate::script::{Block, Command, Script};
use crate::words::{is_skipped, words_of};
use cmm_items::Items;
use cmm_rules::Rule;
use std::alloc::Global;

/// The longest script, in bytes.
pub const SCRIPT_LIMIT: usize = 65_536;

/// The script that bytes spell. A fault is the first in the text, but a script of more than `SCRIPT_LIMIT` bytes is refused for its
/// length.
pub fn parse_script(alloc: Global, bytes: &[u8]) -> Result<Script, ScriptFault>
    // What is read is spelled so.
    ensures ok { IfOk result (SpellsScript bytes.now) }
    // Its commands give few values.
    ensures few { IfOk result HasFewValues }
    // What is spelled so is read, unless memory runs out.
    ensures only { (s : Script) → SpellsScript bytes.now s → IsScript s result }
    // A fault is the first of the bytes.
    ensures err { IfErr result (ScriptFaultAt bytes.now) }
    // Bytes with a fault are refused for it, unless memory runs out.
    ensures refused { (rule : Rule) (line : ℕ) → IsFirstFault bytes.now rule line → IsRefusal rule line result }
{
    if bytes.len() > SCRIPT_LIMIT {
        return Err(fault(Rule::ScriptTooLong, 1));
    }
    let blocks = blocks_of(alloc, bytes)?;
    Ok(Script { blocks })
}

/// The blocks of a script that is not too long.
fn blocks_of(alloc: Global, bytes: &[u8]) -> Result<Items<Block>, ScriptFault>
    requires { length bytes.now ≤ SCRIPT_LIMIT }
    ensures { Makes result (blocks_after [] (said_in bytes.now)) }
{
    let mut blocks = Vec::new(alloc);
    let mut number = 0;
    for line in bytes.split(|byte| *byte == b'\n') {
        number += 1;
        read_line(alloc, &mut blocks, number, line)?;
    }
    Ok(Items::from_vec(blocks))
}

/// Adds what a line says to the blocks before it.
#[tactic(auto, unfolding(crate::specs::inside::Building::with_words))]
fn read_line(
    alloc: Global,
    blocks: &mut Vec<Block>,
    number: u32,
    line: &[u8],
) -> Result<(), ScriptFault>
    ensures { Leaves result number blocks.new.items (with_words blocks.old.items number (words_in line.now)) }
{
    let words = words_of(alloc, line)?;
    if is_skipped(&words) {
        return Ok(());
    }
    add_line(alloc, blocks, number, &words)
}

fn add_line(
    alloc: Global,
    blocks: &mut Vec<Block>,
    number: u32,
    words: &[&[u8]],
) -> Result<(), ScriptFault>
    ensures { Leaves result number blocks.new.items (with_line blocks.old.items number (line_in_words (map (λ word. word.now) words.now))) }
{
    match line_of(alloc, words) {
        Ok(Line::Begins(code)) => begin_block(alloc, blocks, number, code),
        Ok(Line::Does(command)) => add_command(blocks, number, command),
        Err(Unread::Form) => Err(fault(Rule::UnknownLine, number)),
        Err(Unread::Memory) => Err(ScriptFault::Memory),
    }
}

/// Begins a block, where none before it has its code.
fn begin_block(
    alloc: Global,
    blocks: &mut Vec<Block>,
    number: u32,
    code: Option<u64>,
) -> Result<(), ScriptFault>
    ensures { Leaves result number blocks.new.items (with_head blocks.old.items code) }
{
    if has_code(code, blocks) {
        return Err(fault(Rule::RepeatedBlock, number));
    }
    blocks.push(Block {
        code,
        commands: Items::new(alloc),
        lines: Items::new(alloc),
    })?;
    Ok(())
}

/// Whether some block has this code.
fn has_code(code: Option<u64>, blocks: &[Block]) -> bool
    ensures { result ≡ has_code_in code blocks.now }
{
    blocks.iter().any(|block| code == block.code)
}

/// Adds a command to the last block, where there is one.
fn add_command(blocks: &mut Vec<Block>, number: u32, command: Command) -> Result<(), ScriptFault>
    ensures { Leaves result number blocks.new.items (with_last blocks.old.items number command) }
{
    let Some(block) = blocks.last_mut() else {
        return Err(fault(Rule::UnknownLine, number));
    };
    block.commands.push(command)?;
    block.lines.push(number)?;
    Ok(())
}

/// A broken rule, at a line.
fn fault(rule: Rule, line: u32) -> ScriptFault
    ensures { result ≡ ScriptFault.At rule line }
{
    ScriptFault::At { rule, line }
}
