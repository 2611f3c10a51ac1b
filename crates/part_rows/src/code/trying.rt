//! A node is tried.

use crate::code::machine::Machine;
use crate::code::nodes::{Node, add, with_labels};
use crate::code::places::{
    DESTINATIONS, DestinationKind, OPERANDS, OperandKind, PlaceKind, Purpose, destination,
    left_operand, place, right_operand, symbol,
};
use cmm_chain::Location;
use cmm_select::stop;
use rv_sim::Event;
use rv_table::memory_map::{DATA_BASE, GLOBALS_OFFSET, REGION_BASE, STACK_BASE};
use rv_table::{Regs, Trap, TrapKind};
use std::alloc::{AllocError, Global};

/// How far behind the region's address the global register is that is tried.
const GLOBAL_OFFSET: u64 = GLOBALS_OFFSET + 8;

/// How many bytes the stack has.
const STACK: u32 = 8192;

/// How many bytes at each end of the region have numbers at the beginning.
const SHOWN: u64 = 16;

/// The operands and the destination of a node.
#[derive(Clone, Copy)]
pub struct Kinds {
    pub left: OperandKind,
    pub right: OperandKind,
    pub to: DestinationKind,
}

impl Kinds {
    /// Places of one kind.
    pub fn all(kind: PlaceKind) -> Kinds {
        let operand = OperandKind::Place(kind);
        Kinds {
            left: operand,
            right: operand,
            to: DestinationKind::Place(kind),
        }
    }
}

/// What comes of a node.
#[derive(Clone, Copy, Debug, PartialEq, Eq)]
pub enum Outcome {
    /// What the destination has.
    Word(u64),
    /// Of a store, the bytes from 4 before its address on.
    Bytes([u8; 16]),
    /// The run ends otherwise than at its last instruction.
    Ends(Event),
    /// A register that the node is to keep is changed, or an operand.
    Disturbs,
    /// Not the same by all kinds of operands and destinations.
    Differs,
}

/// What a node gives on two words, by each kind of operands, and by each kind of destination with each of the left operand.
pub fn try_all(alloc: Global, node: Node, left: u64, right: u64) -> Result<Outcome, AllocError> {
    let mut found = None;
    for (i, from) in OPERANDS.iter().enumerate() {
        for (j, other) in OPERANDS.iter().enumerate() {
            let kinds = Kinds {
                left: *from,
                right: *other,
                to: DESTINATIONS[(i + j) % 5],
            };
            let outcome = try_once(alloc, node, kinds, left, right)?;
            if found.unwrap_or(outcome) != outcome {
                return Ok(Outcome::Differs);
            }
            found = Some(outcome);
        }
    }
    Ok(found.unwrap_or(Outcome::Differs))
}

/// What a node gives on two words, by these kinds.
fn try_once(
    alloc: Global,
    node: Node,
    kinds: Kinds,
    left: u64,
    right: u64,
) -> Result<Outcome, AllocError> {
    let mut machine = machine_of(alloc, node, kinds, left, right)?;
    prepare(&mut machine, kinds, left, right);
    let before = machine.registers;
    let event = machine.run();
    let trap = Trap {
        kind: TrapKind::Breakpoint,
        pc: machine.registers.pc,
    };
    if event != Event::Trap(trap) {
        return Ok(Outcome::Ends(event));
    }
    if !are_kept(&before, &machine.registers, kinds.to)
        || !has(&machine, kinds.left, Purpose::Left, left)
        || !has(&machine, kinds.right, Purpose::Right, right)
    {
        return Ok(Outcome::Disturbs);
    }
    Ok(match node {
        Node::Store(..) => Outcome::Bytes(bytes_at(&machine, left.wrapping_sub(4))),
        _ => Outcome::Word(result_of(&machine, kinds.to)),
    })
}

/// How many instructions a node has by these kinds.
pub fn count_of(alloc: Global, node: Node, kinds: Kinds) -> Result<usize, AllocError> {
    let machine = machine_of(alloc, node, kinds, 0, 0)?;
    Ok(machine.instructions().saturating_sub(1))
}

/// The words of the code of a node by these kinds.
pub fn words_of(alloc: Global, node: Node, kinds: Kinds) -> Result<Vec<u32>, AllocError> {
    let machine = machine_of(alloc, node, kinds, 0, 0)?;
    let mut words = Vec::new(alloc);
    for index in 1..machine.instructions() {
        words.push(machine.instruction(index - 1))?;
    }
    Ok(words)
}

/// A machine with the code of a node, and behind it a breakpoint.
fn machine_of(
    alloc: Global,
    node: Node,
    kinds: Kinds,
    left: u64,
    right: u64,
) -> Result<Machine, AllocError> {
    let mut asm = with_labels(alloc)?;
    let (first, second) = (
        left_operand(kinds.left, left),
        right_operand(kinds.right, right),
    );
    add(&mut asm, node, &first, &second, &destination(kinds.to))?;
    stop(&mut asm)?;
    let symbols = [symbol(left), symbol(right), GLOBAL_OFFSET];
    Machine::new(alloc, asm, &symbols, &initial(), STACK)
}

/// The number at an address at the beginning.
fn pattern(address: u64) -> u8 {
    (address.wrapping_mul(37).wrapping_add(11) % 256) as u8
}

/// The data at the beginning.
fn initial() -> [u8; 64] {
    let mut bytes = [0; 64];
    for (index, byte) in bytes.iter_mut().enumerate() {
        *byte = pattern(DATA_BASE + index as u64);
    }
    bytes
}

/// Gives both ends of the region numbers, and operands that are places their words.
fn prepare(machine: &mut Machine, kinds: Kinds, left: u64, right: u64) {
    let end = STACK_BASE + u64::from(STACK);
    for offset in 0..SHOWN {
        for address in [REGION_BASE + offset, end - SHOWN + offset] {
            let _ = machine
                .memory
                .store(address, 1, u64::from(pattern(address)));
        }
    }
    if let OperandKind::Place(kind) = kinds.left {
        machine.put(place(kind, Purpose::Left), left);
    }
    if let OperandKind::Place(kind) = kinds.right {
        machine.put(place(kind, Purpose::Right), right);
    }
}

/// Whether all registers are as they were, but for 5 to 7 and the destination.
fn are_kept(before: &Regs, after: &Regs, to: DestinationKind) -> bool {
    let changed = match to {
        DestinationKind::Place(kind) => place(kind, Purpose::Result),
        DestinationKind::Global => Location::Slot(0),
    };
    (0..32u8).all(|register| {
        matches!(register, 5..=7)
            || changed == Location::Saved(register)
            || changed == Location::Temp(register)
            || before.x[register as usize] == after.x[register as usize]
    })
}

/// Whether an operand that is a place still has its word.
fn has(machine: &Machine, kind: OperandKind, purpose: Purpose, word: u64) -> bool {
    match kind {
        OperandKind::Place(kind) => machine.at(place(kind, purpose)) == word,
        OperandKind::Number | OperandKind::Symbol => true,
    }
}

/// What the destination has.
fn result_of(machine: &Machine, to: DestinationKind) -> u64 {
    match to {
        DestinationKind::Place(kind) => machine.at(place(kind, Purpose::Result)),
        DestinationKind::Global => machine.word(REGION_BASE + GLOBAL_OFFSET),
    }
}

/// The bytes at an address.
fn bytes_at(machine: &Machine, address: u64) -> [u8; 16] {
    let mut bytes = [0; 16];
    for (index, byte) in bytes.iter_mut().enumerate() {
        *byte = machine.byte(address.wrapping_add(index as u64));
    }
    bytes
}
