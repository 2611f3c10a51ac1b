//! Where a program of two procedures may stand.

ghost use Rattle.std.specs.Prelude.{◌≡◌, true, false, IfOk, [], ◌∷◌};
ghost use Rattle.cmm_program.specs.declared.statement.Form.TheVariants.{Continuation};
ghost use Rattle.cmm_program.specs.InRange.{IsInRange};

use crate::text::{number_of, numbers_of, small_of};
use cmm_items::Items;
use cmm_program::{Cont, Form, PlaceRow, Placement, Proc, Program, StackItem, Statement};
use cmm_words::Name;
use std::alloc::{AllocError, Global};
use std::io;

/// Prints whether a placement of the program is right. The words have the addresses of the two codes, and of the second procedure the frame's size, the
/// offsets of its two pairs and of its stackdata label; a last word says how many rows there are where these are not two.
pub fn print_placement(rt: &(impl AllocGlobal + Print), text: &str) -> io::Result<()> {
    let program = two_procedures(rt.alloc())?;
    let placement = placement_of(rt.alloc(), text)?;
    print!(rt; " {}", placement.valid(&program))
}

/// The placement that words say.
fn placement_of(alloc: Global, text: &str) -> Result<Placement, AllocError> {
    let (first, rest) = text.split_once(' ').unwrap_or((text, ""));
    let (code, rest) = rest.split_once(' ').unwrap_or((rest, ""));
    let (frame, rest) = rest.split_once(' ').unwrap_or((rest, ""));
    let (pairs, rest) = rest.split_once(' ').unwrap_or((rest, ""));
    let (labels, count) = rest.split_once(' ').unwrap_or((rest, "2"));
    let row = PlaceRow {
        code: number_of(code),
        frame: small_of(frame),
        pairs: offsets_of(alloc, pairs)?,
        stack: offsets_of(alloc, labels)?,
    };
    let mut rows = two(alloc, bare_row(alloc, number_of(first)), row)?;
    rows.push(bare_row(alloc, 0x1_0008))?;
    rows.truncate(small_of(count) as usize);
    Ok(Placement { rows })
}

/// The offsets that commas divide.
fn offsets_of(alloc: Global, word: &str) -> Result<Items<u32>, AllocError> {
    let mut offsets = Items::new(alloc);
    for number in &numbers_of(alloc, word)? {
        offsets.push((*number % 0x1_0000_0000) as u32)?;
    }
    Ok(offsets)
}

/// A row without pairs and stackdata.
fn bare_row(alloc: Global, code: u64) -> PlaceRow {
    PlaceRow {
        code,
        frame: 0,
        pairs: Items::new(alloc),
        stack: Items::new(alloc),
    }
}

/// Two items.
fn two<T: Drop>(alloc: Global, first: T, second: T) -> Result<Items<T>, AllocError>
    ensures { IfOk result (λ items. items ≡ first ∷ second ∷ []) }
{
    let mut items = Items::new(alloc);
    items.push(first)?;
    items.push(second)?;
    Ok(items)
}

/// A procedure without a name, variables or call sites.
fn procedure(
    alloc: Global,
    tokens: u32,
    stack: Items<StackItem>,
    conts: Items<Cont>,
    body: Items<Statement>,
) -> Proc
    ensures { result ≡ record {
      name = [];
      unit = 0;
      tokens = tokens;
      formals = 0;
      vars = [];
      stack = stack;
      conts = conts;
      sites = [];
      body = body;
    } }
{
    Proc {
        name: Name::new(Items::new(alloc)),
        unit: 0,
        tokens,
        formals: 0,
        vars: Items::new(alloc),
        stack,
        conts,
        sites: Items::new(alloc),
        body,
    }
}

/// A continuation without parameters.
fn continuation(alloc: Global) -> Cont
    ensures { result ≡ record { params = [] } }
{
    Cont {
        params: Items::new(alloc),
    }
}

/// `continuation j: continuation k:`
fn body(alloc: Global) -> Result<Items<Statement>, AllocError>
    ensures { IfOk result (λ body. body ≡
        record { tokens = 5; form = Continuation 0 } ∷ record { tokens = 5; form = Continuation 1 } ∷ []) }
{
    let j = Statement {
        tokens: 5,
        form: Form::Continuation(0),
    };
    let k = Statement {
        tokens: 5,
        form: Form::Continuation(1),
    };
    two(alloc, j, k)
}

/// `stackdata { l: bits8[32]; }`
fn stackdata(alloc: Global) -> Result<Items<StackItem>, AllocError>
    ensures { IfOk result (λ items. items ≡
        record { align = 1; length = 0; label = true } ∷ record { align = 1; length = 32; label = false } ∷ []) }
{
    let label = StackItem {
        align: 1,
        length: 0,
        label: true,
    };
    let bytes = StackItem {
        align: 1,
        length: 32,
        label: false,
    };
    two(alloc, label, bytes)
}

/// `f() { stackdata { l: bits8[32]; } continuation j: continuation k: }`
fn framed(alloc: Global) -> Result<Proc, AllocError>
    ensures { IfOk result (λ q. q ≡ record {
      name = [];
      unit = 0;
      tokens = 25;
      formals = 0;
      vars = [];
      sites = [];
      stack = record { align = 1; length = 0; label = true } ∷ record { align = 1; length = 32; label = false } ∷ [];
      conts = record { params = [] } ∷ record { params = [] } ∷ [];
      body = record { tokens = 5; form = Continuation 0 } ∷ record { tokens = 5; form = Continuation 1 } ∷ [];
    }) }
{
    let conts = two(alloc, continuation(alloc), continuation(alloc))?;
    let stack = stackdata(alloc)?;
    let body = body(alloc)?;
    Ok(procedure(alloc, 25, stack, conts, body))
}

/// A program of two procedures.
fn program(alloc: Global, main: Proc, f: Proc) -> Result<Program, AllocError>
    ensures { IfOk result (λ p. p ≡ record { procs = main ∷ f ∷ []; datums = []; globals = []; labels = []; main = 0 }) }
{
    let procs = two(alloc, main, f)?;
    Ok(Program {
        procs,
        datums: Items::new(alloc),
        globals: Items::new(alloc),
        labels: Items::new(alloc),
        main: 0,
    })
}

/// `main() {}` and `f() { stackdata { l: bits8[32]; } continuation j: continuation k: }`
fn two_procedures(alloc: Global) -> Result<Program, AllocError>
    ensures { IfOk result (λ p. IsInRange p) }
{
    let f = framed(alloc)?;
    let main = procedure(
        alloc,
        5,
        Items::new(alloc),
        Items::new(alloc),
        Items::new(alloc),
    );
    program(alloc, main, f)
}
