//! A call: a frame is made, values are taken, a second frame is made and left, and values come back.

ghost use Rattle.std.specs.Prelude.{◌≡◌, ◌≤◌, ◌<◌, ◌+◌, ◌*◌, ◌^◌, IfOk, OnOk};
ghost use Rattle.rv_asm.specs.Sizes.{all_longest};
ghost use Rattle.part_rows.specs.Layouts.{called, callee_frame, caller_frame, formals_of, fresh, passed_values, returned_of, size_of, stackdata_at, words_at};

use crate::code::machine::Machine;
use cmm_abi::registers::FRAME;
use cmm_calls::{begin, call, enter, lay_exits, return_values, take};
use cmm_chain::{Frame, Location};
use cmm_items::Items;
use cmm_select::{Destination, Operand, Source, assign_copy, stop};
use rv_asm::{Asm, Label};
use rv_table::memory_map::STACK_BASE;
use std::alloc::{AllocError, Global};

const CALLEE: Label = Label { number: 0 };

const SITE: Label = Label { number: 1 };

const ALTERNATE: Label = Label { number: 2 };

const LIMIT: Label = Label { number: 3 };

/// The register that tells where a run ended.
const MARK: u8 = 28;

/// Where the words of a frame lie that is called.
#[derive(Clone, Copy)]
pub enum Layout {
    /// There is no stackdata.
    Small,
    /// At the end of what an immediate reaches.
    Reach,
    /// Before 65,536 bytes of stackdata.
    Before,
    /// Behind 65,536 bytes of stackdata.
    Behind,
    /// At the end of the longest frame.
    Last,
}

impl Layout {
    /// Where the words begin.
    fn words(self) -> u32
        ensures { result ≡ words_at self }
    {
        match self {
            Layout::Small | Layout::Before => 0,
            Layout::Reach => 1984,
            Layout::Behind => 65_536,
            Layout::Last => 2_097_024,
        }
    }

    /// Where the stackdata begins.
    fn stackdata(self) -> u32
        ensures { result ≡ stackdata_at self }
    {
        match self {
            Layout::Small | Layout::Before => 112,
            Layout::Reach | Layout::Behind | Layout::Last => 0,
        }
    }

    fn size(self) -> u32
        ensures { result ≡ size_of self }
    {
        match self {
            Layout::Small => 112,
            Layout::Reach => 2096,
            Layout::Before | Layout::Behind => 65_648,
            Layout::Last => 2_097_136,
        }
    }
}

/// The frame of the procedure that calls.
fn caller(alloc: Global) -> Result<Frame, AllocError>
    ensures { IfOk result (λ f. f ≡ caller_frame) }
{
    Ok(Frame {
        size: 144,
        return_at: 120,
        saved: Items::from_slice(alloc, &[(9, 128), (27, 136)])?,
        pairs: Items::new(alloc),
        stack: Items::new(alloc),
    })
}

/// The frame of the procedure that is called: eight slots, the return address, two saved registers and a pair of words.
fn callee(alloc: Global, layout: Layout) -> Result<Frame, AllocError>
    ensures { IfOk result (λ f. f ≡ callee_frame layout) }
{
    let words = layout.words();
    Ok(Frame {
        size: layout.size(),
        return_at: words + 64,
        saved: Items::from_slice(alloc, &[(9, words + 72), (27, words + 80)])?,
        pairs: Items::from_slice(alloc, &[words + 96])?,
        stack: Items::from_slice(alloc, &[layout.stackdata()])?,
    })
}

/// A slot of the callee's frame.
fn slot(layout: Layout, index: u32) -> Location
    requires { index < 8 }
    ensures { result ≡ Location.Slot (words_at layout + 8 * index) }
{
    Location::Slot(layout.words() + 8 * index)
}

/// What a place has.
fn at(place: Location) -> Operand
    ensures { result ≡ Operand.Held (Source.Place place) }
{
    Operand::Held(Source::Place(place))
}

/// A number.
fn number(number: u64) -> Operand
    ensures { result ≡ Operand.Held (Source.Number number) }
{
    Operand::Held(Source::Number(number))
}

/// What the caller passes: twelve values.
fn passed() -> [Operand; 12]
    ensures { result ≡ passed_values }
{
    [
        number(0xffff_ffff_ffff_fffe),
        at(Location::Saved(9)),
        at(Location::Temp(31)),
        at(Location::Temp(13)),
        Operand::Held(Source::Address(96)),
        number(5),
        number(6),
        number(7),
        number(8),
        at(Location::Saved(27)),
        number(10),
        number(11),
    ]
}

/// Where the callee takes them.
fn formals(layout: Layout) -> [Location; 12]
    ensures { result ≡ formals_of layout }
{
    [
        slot(layout, 0),
        Location::Saved(9),
        Location::Saved(27),
        Location::Temp(12),
        slot(layout, 1),
        Location::Temp(28),
        slot(layout, 2),
        slot(layout, 3),
        Location::Temp(29),
        Location::Temp(30),
        slot(layout, 4),
        slot(layout, 5),
    ]
}

/// What the callee returns: its formals, a local that it made 0, and the addresses of its stackdata and of its frame's end.
fn returned(layout: Layout) -> [Operand; 15]
    ensures { result ≡ returned_of layout }
{
    [
        at(slot(layout, 6)),
        at(Location::Temp(12)),
        at(slot(layout, 5)),
        at(slot(layout, 4)),
        at(Location::Temp(30)),
        at(Location::Temp(29)),
        at(slot(layout, 3)),
        at(slot(layout, 2)),
        at(Location::Temp(28)),
        at(slot(layout, 1)),
        at(Location::Saved(27)),
        at(Location::Saved(9)),
        at(slot(layout, 0)),
        Operand::Held(Source::Address(layout.stackdata())),
        Operand::Held(Source::Address(layout.size())),
    ]
}

/// Where the caller takes these.
static RESULTS: [Location; 15] = [
    Location::Slot(0),
    Location::Slot(8),
    Location::Slot(16),
    Location::Slot(24),
    Location::Slot(32),
    Location::Slot(40),
    Location::Slot(48),
    Location::Slot(56),
    Location::Slot(64),
    Location::Slot(72),
    Location::Slot(80),
    Location::Slot(88),
    Location::Slot(96),
    Location::Slot(104),
    Location::Slot(112),
];

/// Adds the code of the caller, where the run begins: it ends with 1 behind the normal exit and with 2 behind the alternate one.
fn add_caller(asm: &mut Asm, frame: &Frame) -> Result<(), AllocError>
    requires frame { frame.now ≡ caller_frame }
    requires labels { asm.old.labels ≡ fresh }
    ensures labels { OnOk result (asm.new.labels ≡ called) }
    ensures few { OnOk result (all_longest asm.new.parts ≤ all_longest asm.old.parts + 4000) }
{
    enter(asm, frame, &[], &[], LIMIT)?;
    call(asm, frame, &passed(), CALLEE, SITE)?;
    lay_exits(asm, &[ALTERNATE])?;
    take(asm, frame, &RESULTS)?;
    end(asm, 1)?;
    asm.place(ALTERNATE);
    take(asm, frame, &RESULTS)?;
    end(asm, 2)?;
    Ok(())
}

/// Adds the code of the callee, which returns by an exit, and that of the limit, which ends the run with 3.
fn add_callee(asm: &mut Asm, frame: &Frame, layout: Layout, exit: u32) -> Result<(), AllocError>
    requires frame { frame.now ≡ callee_frame layout }
    requires labels { asm.old.labels ≡ called }
    requires exit { exit < 512 }
    ensures few { OnOk result (all_longest asm.new.parts ≤ all_longest asm.old.parts + 4000) }
{
    asm.place(CALLEE);
    begin(
        asm,
        frame,
        &[LIMIT],
        &[slot(layout, 6)],
        &formals(layout),
        LIMIT,
    )?;
    return_values(asm, frame, &returned(layout), exit)?;
    asm.place(LIMIT);
    end(asm, 3)?;
    Ok(())
}

/// Ends a run with a number.
fn end(asm: &mut Asm, number: u64) -> Result<(), AllocError>
    ensures labels { asm.new.labels ≡ asm.old.labels }
    ensures few { OnOk result (all_longest asm.new.parts ≤ all_longest asm.old.parts + 100) }
{
    let mark = Destination::Place(Location::Temp(MARK));
    assign_copy(asm, &Operand::Held(Source::Number(number)), &mark)?;
    stop(asm)?;
    Ok(())
}

/// An assembler with the labels of a call.
fn with_labels(alloc: Global) -> Result<Asm, AllocError>
    ensures labels { IfOk result (λ asm. asm.labels ≡ fresh) }
    ensures parts { IfOk result (λ asm. all_longest asm.parts ≡ 0) }
{
    let mut asm = Asm::new(alloc);
    asm.label()?;
    asm.label()?;
    asm.label()?;
    asm.label()?;
    Ok(asm)
}

/// What a call leaves: the mark, how far the frame's address is below the stack's end, and what the caller has from its frame's address on and in the registers that the
/// callee saved.
pub fn run_call(
    alloc: Global,
    layout: Layout,
    exit: u32,
    stack: u32,
) -> Result<Vec<u64>, AllocError>
    requires exit { exit < 512 }
    requires small { stack ≤ 2 ^ 28 }
{
    let mut asm = with_labels(alloc)?;
    add_caller(&mut asm, &caller(alloc)?)?;
    add_callee(&mut asm, &callee(alloc, layout)?, layout, exit)?;
    let mut machine = Machine::new(alloc, asm, &[], &[], stack)?;
    let top = STACK_BASE + u64::from(stack);
    machine.registers.write(FRAME, top);
    let _ = machine.run();
    let mut found = Vec::new(alloc);
    let frame = machine.register(FRAME);
    found.push(machine.register(MARK))?;
    found.push(top.wrapping_sub(frame))?;
    found.push(machine.register(9))?;
    found.push(machine.register(27))?;
    for index in 0..15u64 {
        found.push(machine.word(frame.wrapping_add(8 * index)))?;
    }
    Ok(found)
}
