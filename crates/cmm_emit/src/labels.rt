//! Labels that are made one after another, so that their numbers follow each other.

ghost use Rattle.std.specs.Prelude.{◌≡◌, ◌+◌, ◌<◌, ◌≤◌, ◌^◌, ◌∷◌, [], ◌++◌, false, length, replicate, IfOk, OnOk};
ghost use Rattle.rv_asm.specs.declared.part.Meaning.TheVariants.{Inner};
ghost use Rattle.cmm_emit.specs.Labels.{labels_from};

use cmm_items::Items;
use rv_asm::{Asm, Label};
use std::alloc::{AllocError, Global};

/// Makes a label for a place in the code. An error is want of memory.
pub fn label(asm: &mut Asm) -> Result<Label, AllocError>
    requires { length asm.old.labels < 2 ^ 32 }
    ensures number { IfOk result (λ made. made ≡ record { number = length asm.old.labels }) }
    ensures labels { OnOk result (asm.new.labels ≡ asm.old.labels ++ Inner false ∷ []) }
    ensures parts { asm.new.parts ≡ asm.old.parts }
{
    let made = asm.label()?;
    Ok(made)
}

/// Makes `count` labels for places in the code. An error is want of memory.
pub fn labels(asm: &mut Asm, alloc: Global, count: usize) -> Result<Items<Label>, AllocError>
    requires { length asm.old.labels + count ≤ 2 ^ 32 }
    ensures made { IfOk result (λ made. made ≡ labels_from (length asm.old.labels) count) }
    ensures labels { OnOk result (asm.new.labels ≡ asm.old.labels ++ replicate count (Inner false)) }
    ensures parts { asm.new.parts ≡ asm.old.parts }
{
    let mut made = Items::with_capacity(alloc, count)?;
    for _ in 0..count {
        made.push(label(asm)?)?;
    }
    Ok(made)
}
