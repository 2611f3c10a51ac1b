//! Instructions as bytes.
ghost use Rattle.std.specs.Prelude.{◌≡◌, IfOk};
ghost use Rattle.std.specs.List.{All};
ghost use Rattle.rv_table.specs.Stands.{code_of};
ghost use Rattle.rv_table.specs.Table.{IsValid};

use crate::encoding::encode;
use rv_table::Instr;
use std::alloc::{AllocError, Global};

/// The bytes of these instructions, four each, one after another, the low byte of each word first (RISC-V ISA Volume I, "Base
/// Instruction-Length Encoding"). The error is want of memory.
pub fn bytes_of(alloc: Global, code: &[Instr]) -> Result<Vec<u8>, AllocError>
    requires { All IsValid code.now }
    ensures { IfOk result (λ bytes. bytes.items ≡ code_of code.now) }
{
    let mut bytes = Vec::new(alloc);
    for instruction in code {
        bytes.extend_from_slice(&encode(*instruction).to_le_bytes())?;
    }
    Ok(bytes)
}
