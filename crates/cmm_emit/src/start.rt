//! The code with which a run begins, that with which it ends for want of room in the stack, and that by which it calls the client.

ghost use Rattle.std.specs.Prelude.{◌≡◌, ◌+◌, ◌≤◌, List, [], ◌∷◌, ◌++◌, Some, true, false, length, slice_get, slice_set, IfOk, OnOk};
ghost use Rattle.rv_asm.specs.Appending.{Appends, Codes};
ghost use Rattle.rv_asm.specs.Assembly.{IsTarget};
ghost use Rattle.rv_asm.specs.Sizes.{all_longest};
ghost use Rattle.rv_asm.specs.declared.part.Part.{Part};
ghost use Rattle.rv_asm.specs.declared.part.Part.TheVariants.{Place, Single};
ghost use Rattle.rv_asm.specs.declared.part.Meaning.TheVariants.{Inner};
ghost use Rattle.rv_table.specs.declared.instruction.Instr.TheVariants.{Ebreak};
ghost use Rattle.rv_table.specs.declared.request.Request.TheVariants as request;
ghost use Rattle.cmm_effects.specs.Requests.{AsksFor};
ghost use Rattle.cmm_abi.specs.declared.registers.TheConstants.{REQUEST_VALUE};
ghost use Rattle.cmm_emit.specs.Starts.{CallsMain, IsStart};
ghost use Rattle.cmm_emit.specs.Orders.{IsClosed};

use crate::finishing::place;
use cmm_calls::{ask_client, ask_end, ask_limit};
use cmm_items::Items;
use cmm_program::Program;
use cmm_unit_code::{Reference, UnitCode};
use rv_asm::{Asm, Label};
use rv_table::Instr;
use std::alloc::{AllocError, Global};

/// A word at which no run arrives. It stands behind the code of each procedure, so that no two begin at one address. An error is want of memory, and
/// nothing is changed.
pub fn close(asm: &mut Asm) -> Result<(), AllocError>
    ensures parts { OnOk result (asm.new.parts ≡ asm.old.parts ++ Single Ebreak ∷ []) }
    ensures labels { asm.new.labels ≡ asm.old.labels }
{
    asm.emit(Instr::Ebreak)
}

/// Calls `main`, and ends the run with what it returns, at a label.
fn lay_start(asm: &mut Asm, main: Label, last: Label) -> Result<(), AllocError>
    requires main { IsTarget asm.old.labels main }
    requires last { slice_get asm.old.labels last.number ≡ Some (Inner false) }
    ensures calls { OnOk result (Appends asm.old.parts asm.new.parts (λ x from to. CallsMain main last x from)) }
    ensures ends { OnOk result (Codes asm.new.parts last (λ x from to. AsksFor 1 (λ t. request.End (t.registers REQUEST_VALUE)) x from)) }
    ensures closed { OnOk result (IsClosed asm.new.parts) }
    ensures size { OnOk result (all_longest asm.new.parts ≤ all_longest asm.old.parts + 20) }
    ensures labels { OnOk result (asm.new.labels ≡ slice_set asm.old.labels last.number (Inner true)) }
{
    asm.call(main)?;
    asm.place(last);
    ask_end(asm)?;
    close(asm)
}

/// Ends the run at the limit of the stack, at a label.
pub fn lay_limit(asm: &mut Asm, limit: Label) -> Result<(), AllocError>
    requires { slice_get asm.old.labels limit.number ≡ Some (Inner false) }
    ensures placed { OnOk result ((back : List Part) × (asm.new.parts ≡ asm.old.parts ++ Place limit ∷ back)) }
    ensures ends { OnOk result (Codes asm.new.parts limit (λ x from to. AsksFor 1 (λ t. request.StackLimit) x from)) }
    ensures size { OnOk result (all_longest asm.new.parts ≤ all_longest asm.old.parts + 8) }
    ensures labels { OnOk result (asm.new.labels ≡ slice_set asm.old.labels limit.number (Inner true)) }
{
    asm.place(limit);
    ask_limit(asm)
}

/// Calls the client, at a label.
pub fn lay_client(asm: &mut Asm, client: Label) -> Result<(), AllocError>
    requires { slice_get asm.old.labels client.number ≡ Some (Inner false) }
    ensures placed { OnOk result (Appends asm.old.parts asm.new.parts (λ x from to. Unit {0})) }
    ensures calls { OnOk result (Codes asm.new.parts client (λ x from to. AsksFor 1 (λ t. request.Yield) x from)) }
    ensures size { OnOk result (all_longest asm.new.parts ≤ all_longest asm.old.parts + 8) }
    ensures labels { OnOk result (asm.new.labels ≡ slice_set asm.old.labels client.number (Inner true)) }
{
    asm.place(client);
    ask_client(asm)
}

/// The code with which a run begins.
#[derive(Drop)]
pub struct Start {
    pub code: UnitCode,
    /// Where in it the call of `main` comes back.
    pub last: u64,
}

/// The code with which a run of a program begins: it calls `main`, which is all that it names. An error is want of memory.
pub fn start_code(alloc: Global, program: &Program) -> Result<Start, AllocError>
    ensures { IfOk result (IsStart program.now) }
{
    let mut asm = Asm::new(alloc);
    let main = asm.outer(0, true)?;
    let last = asm.label()?;
    lay_start(&mut asm, main, last)?;
    let placed = asm.finish(0)?;
    let last = place(placed.places.as_slice(), last);
    let mut references = Items::new(alloc);
    references.push(Reference::Procedure(program.main))?;
    let code = UnitCode {
        code: placed.bytes,
        references,
        fixes: placed.fixes,
        procedures: Items::new(alloc),
        landings: Items::new(alloc),
        sites: Items::new(alloc),
    };
    Ok(Start { code, last })
}
