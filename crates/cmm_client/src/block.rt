//! The block that answers a yield.
ghost use Rattle.std.specs.Prelude.{◌≡◌};
ghost use Rattle.std.specs.List.{All};
ghost use Rattle.std.specs.Option.{option_copied};
ghost use Rattle.cmm_script.specs.Limits.{GivesFew, HasFewValues};
ghost use Rattle.cmm_program.specs.Commands.{commands_for as commands_in};
ghost use Rattle.cmm_client.specs.inside.Counting.{block_of as block_in, own_block as own_block_in};

use cmm_script::{Block, Command, Script};

/// The commands for a yield of these values: those of the block whose code is the first one, or else of the block for all others, or none.
pub(crate) fn commands_for<'a>(script: &'a Script, yielded: &[u64]) -> &'a [Command]
    ensures commands { result.now ≡ commands_in yielded.now script.now }
    ensures few { HasFewValues script.now → All GivesFew result.now }
{
    match own_block(script, yielded) {
        Some(block) => block.commands.as_slice(),
        None => match block_of(script, None) {
            Some(block) => block.commands.as_slice(),
            None => &[],
        },
    }
}

/// The block whose code is the first of these values.
fn own_block<'a>(script: &'a Script, yielded: &[u64]) -> Option<&'a Block>
    ensures { option_copied result ≡ own_block_in yielded.now script.now.blocks }
{
    match yielded.first() {
        Some(value) => block_of(script, Some(*value)),
        None => None,
    }
}

/// The block with a code.
fn block_of(script: &Script, code: Option<u64>) -> Option<&Block>
    ensures { option_copied result ≡ block_in code script.now.blocks }
{
    script.blocks.iter().find(|block| block.code == code)
}
