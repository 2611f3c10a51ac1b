//! Operands and destinations of each kind.

ghost use Rattle.std.specs.Prelude.{◌≡◌, ◌<◌, ◌^◌};
ghost use Rattle.cmm_effects.specs.Changes.{IsPlace};
ghost use Rattle.cmm_select.specs.Destinations.{IsDestination};
ghost use Rattle.cmm_select.specs.Operands.{IsOperand};
ghost use Rattle.part_rows.specs.Labels.{at_first};

use cmm_chain::Location;
use cmm_select::{Destination, Operand, Source};
use rv_asm::Label;

/// What a place is for.
#[derive(Clone, Copy)]
pub enum Purpose {
    Left,
    Right,
    Result,
}

/// The kinds of places.
#[derive(Clone, Copy)]
pub enum PlaceKind {
    /// A slot that an immediate reaches.
    Near,
    /// A slot that none reaches.
    Far,
    /// A callee-saves register.
    Saved,
    /// Another register.
    Other,
}

/// The kinds of operands.
#[derive(Clone, Copy)]
pub enum OperandKind {
    Place(PlaceKind),
    Number,
    /// What a symbol stands for.
    Symbol,
}

/// The kinds of destinations.
#[derive(Clone, Copy)]
pub enum DestinationKind {
    Place(PlaceKind),
    Global,
}

/// Every kind of operand.
pub static OPERANDS: [OperandKind; 6] = [
    OperandKind::Place(PlaceKind::Near),
    OperandKind::Place(PlaceKind::Far),
    OperandKind::Place(PlaceKind::Saved),
    OperandKind::Place(PlaceKind::Other),
    OperandKind::Number,
    OperandKind::Symbol,
];

/// Every kind of destination.
pub static DESTINATIONS: [DestinationKind; 5] = [
    DestinationKind::Place(PlaceKind::Near),
    DestinationKind::Place(PlaceKind::Far),
    DestinationKind::Place(PlaceKind::Saved),
    DestinationKind::Place(PlaceKind::Other),
    DestinationKind::Global,
];

/// The symbol that a left operand names.
pub const LEFT: Label = Label { number: 0 };

/// The symbol that a right operand names.
pub const RIGHT: Label = Label { number: 1 };

/// The symbol that stands for the offset of a global register.
pub const GLOBAL: Label = Label { number: 2 };

/// Words below this are numbers of symbols.
const NEAR_SYMBOLS: u64 = 0x4000_0000;

/// The number of the symbol that every other word lies behind, by a number of bytes.
const FAR_SYMBOL: u64 = 0x2468_ACE0;

/// The number of the symbol that an operand names which is this word.
pub fn symbol(word: u64) -> u64 {
    if word < NEAR_SYMBOLS {
        word
    } else {
        FAR_SYMBOL
    }
}

/// The place of a kind for a purpose: another one for each.
pub fn place(kind: PlaceKind, purpose: Purpose) -> Location
    ensures { IsPlace result }
{
    match kind {
        PlaceKind::Near => Location::Slot(near(purpose)),
        PlaceKind::Far => Location::Slot(far(purpose)),
        PlaceKind::Saved => saved(purpose),
        PlaceKind::Other => other(purpose),
    }
}

fn near(purpose: Purpose) -> u32
    ensures { result < 2 ^ 21 }
{
    match purpose {
        Purpose::Left => 0,
        Purpose::Right => 2040,
        Purpose::Result => 8,
    }
}

fn far(purpose: Purpose) -> u32
    ensures { result < 2 ^ 21 }
{
    match purpose {
        Purpose::Left => 2048,
        Purpose::Right => 6136,
        Purpose::Result => 4096,
    }
}

fn saved(purpose: Purpose) -> Location
    ensures { IsPlace result }
{
    match purpose {
        Purpose::Left => Location::Saved(9),
        Purpose::Right => Location::Saved(27),
        Purpose::Result => Location::Saved(18),
    }
}

fn other(purpose: Purpose) -> Location
    ensures { IsPlace result }
{
    match purpose {
        Purpose::Left => Location::Temp(12),
        Purpose::Right => Location::Temp(31),
        Purpose::Result => Location::Temp(15),
    }
}

/// The left operand of a kind that is this word.
pub fn left_operand(kind: OperandKind, word: u64) -> Operand
    ensures { IsOperand at_first result }
{
    match kind {
        OperandKind::Place(kind) => Operand::Held(Source::Place(place(kind, Purpose::Left))),
        OperandKind::Number => Operand::Held(Source::Number(word)),
        OperandKind::Symbol => Operand::Symbol {
            of: LEFT,
            plus: word.wrapping_sub(symbol(word)),
        },
    }
}

/// The right operand of a kind that is this word.
pub fn right_operand(kind: OperandKind, word: u64) -> Operand
    ensures { IsOperand at_first result }
{
    match kind {
        OperandKind::Place(kind) => Operand::Held(Source::Place(place(kind, Purpose::Right))),
        OperandKind::Number => Operand::Held(Source::Number(word)),
        OperandKind::Symbol => Operand::Symbol {
            of: RIGHT,
            plus: word.wrapping_sub(symbol(word)),
        },
    }
}

/// The destination of a kind.
pub fn destination(kind: DestinationKind) -> Destination
    ensures { IsDestination at_first result }
{
    match kind {
        DestinationKind::Place(kind) => Destination::Place(place(kind, Purpose::Result)),
        DestinationKind::Global => Destination::Register(GLOBAL),
    }
}
