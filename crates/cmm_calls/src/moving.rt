//! Numbers go from registers to registers, all at once.

ghost use Rattle.std.specs.Prelude.{◌≡◌, ◌*◌, ◌<◌, length, pos, true, false, OnOk};
ghost use Rattle.cmm_moves.specs.Moves.{are_apart, is_outside, is_source, is_target};
ghost use Rattle.rv_table.specs.Table.{IsValid};
ghost use Rattle.rv_table.specs.declared.instruction.Instr.TheVariants.{Addi};
ghost use Rattle.cmm_effects.specs.Pieces.{Adds, Always};
ghost use Rattle.cmm_calls.specs.inside.Giving.{one_if};
ghost use Rattle.cmm_calls.specs.inside.Moves.{MovesAtOnce, MovesInOrder, PassesBy, begins_moving, is_movable};

use cmm_abi::registers::FIRST_SCRATCH;
use cmm_moves::{Move, sequence};
use cmm_select::copy;
use rv_asm::Asm;
use rv_table::Instr;
use std::alloc::AllocError;

/// Moves between registers at once, by way of a scratch register where they go round in a ring.
pub(crate) fn move_all(asm: &mut Asm, moves: &[Move]) -> Result<(), AllocError>
    requires apart { are_apart moves.now ≡ true }
    requires untouched { is_target FIRST_SCRATCH moves.now ≡ false }
    requires unread { is_source FIRST_SCRATCH moves.now ≡ false }
    requires inside { is_outside is_movable moves.now ≡ false }
    ensures moves { OnOk result (Adds (2 * length moves.now) asm.old.parts asm.new.parts (PassesBy (one_if (begins_moving moves.now)) (2 * length moves.now) Always (MovesAtOnce moves.now))) }
    ensures labels { asm.new.labels ≡ asm.old.labels }
{
    let done = sequence(asm.alloc(), moves, FIRST_SCRATCH as u32)?;
    move_each(asm, done.as_slice())?;
    Ok(())
}

/// Moves between registers, one after the other.
fn move_each(asm: &mut Asm, moves: &[Move]) -> Result<(), AllocError>
    requires inside { is_outside is_movable moves.now ≡ false }
    ensures moves { OnOk result (Adds (length moves.now) asm.old.parts asm.new.parts (PassesBy (length moves.now) (length moves.now) Always (MovesInOrder moves.now))) }
    ensures labels { asm.new.labels ≡ asm.old.labels }
{
    for one in moves {
        asm.emit(moved(*one))?;
    }
    Ok(())
}

/// The instruction of a move.
fn moved(one: Move) -> Instr
    requires to { one.to < 32 }
    requires from { one.from < 32 }
    ensures is { result ≡ Addi one.to one.from (pos 0) }
    ensures valid { IsValid result }
{
    copy(one.to as u8, one.from as u8)
}
