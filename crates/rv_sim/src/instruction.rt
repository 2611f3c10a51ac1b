//! One step: an instruction is fetched, decoded and done.
ghost use Rattle.std.specs.Prelude.{◌≡◌, ◌≢◌, ◌<◌, ◌+◌, ◌^◌, ℕ, Some, Ok, IfOk, IsTrue, slice_index};
ghost use Rattle.rv_memory.specs.Regions.{map_of, region_of};
ghost use Rattle.rv_sim.specs.declared.event.Event.TheVariants.{Next};
ghost use Rattle.rv_sim.specs.Stepping.{state_of, state_with, outcome_of, event_of, state_after};
ghost use Rattle.rv_sim.specs.Standing.{found_at};
ghost use Rattle.rv_sim.specs.inside.Answering.{answer_of};
ghost use Rattle.rv_table.specs.Bounds.{HasASize, WritesARegister, is_size};
ghost use Rattle.rv_table.specs.Machine.{done, extended, goes_to, with_set};
ghost use Rattle.rv_table.specs.Stands.{standing};
ghost use Rattle.rv_table.specs.Table.{IsValid};

use crate::event::Event;
use rv_code::decode;
use rv_memory::Memory;
use rv_table::{Effect, Instr, Regs, Request, Trap, TrapKind, effect_of};

/// Does the instruction at pc, and says what it ends in.
pub fn step(r: &mut Regs, m: &mut Memory) -> Event
    ensures event { result ≡ event_of r.old.pc (outcome_of r.old m.old) }
    ensures state { state_of r.new m.new ≡ state_after (state_of r.old m.old) (outcome_of r.old m.old) }
    ensures map { map_of m.new ≡ map_of m.old }
    ensures region { region_of m.new ≡ region_of m.old }
    ensures zero { slice_index r.new.x 0 ≡ slice_index r.old.x 0 }
    ensures registers_kept { result ≢ Next → r.new ≡ r.old }
    ensures memory_kept { result ≢ Next → m.new ≡ m.old }
{
    match instruction_at(r.pc, m) {
        Ok(instruction) => execute(instruction, r, m),
        Err(kind) => trap(kind, r),
    }
}

/// Does the instruction at pc, which is known already, and says what it ends in.
pub fn execute(instruction: Instr, r: &mut Regs, m: &mut Memory) -> Event
    requires stands { standing (map_of m.old).code r.old.pc ≡ Some instruction }
    requires valid { IsValid instruction }
    requires room { r.old.pc + 4 < 2 ^ 64 }
    ensures event { result ≡ event_of r.old.pc (outcome_of r.old m.old) }
    ensures state { state_of r.new m.new ≡ state_after (state_of r.old m.old) (outcome_of r.old m.old) }
    ensures map { map_of m.new ≡ map_of m.old }
    ensures region { region_of m.new ≡ region_of m.old }
    ensures zero { slice_index r.new.x 0 ≡ slice_index r.old.x 0 }
    ensures registers_kept { result ≢ Next → r.new ≡ r.old }
    ensures memory_kept { result ≢ Next → m.new ≡ m.old }
{
    let effect = effect_of(instruction, r);
    match perform(effect, r, m) {
        Ok(event) => event,
        Err(kind) => trap(kind, r),
    }
}

/// The event of a trap at pc.
fn trap(kind: TrapKind, r: &Regs) -> Event
    ensures { result ≡ Event.Trap (record { kind = kind; pc = r.now.pc }) }
{
    Event::Trap(Trap { kind, pc: r.pc })
}

/// The instruction at an address. The error is the trap's kind.
fn instruction_at(pc: u64, m: &Memory) -> Result<Instr, TrapKind>
    ensures found { result ≡ found_at (map_of m.now).code pc }
    ensures valid { IfOk result IsValid }
    ensures room { IfOk result (λ _. pc + 4 < 2 ^ 64) }
{
    let word = m.fetch(pc)?;
    decode(word).ok_or(TrapKind::NoInstruction)
}

/// Does an effect. The error is the trap's kind.
fn perform(effect: Effect, r: &mut Regs, m: &mut Memory) -> Result<Event, TrapKind>
    requires register { WritesARegister effect }
    requires size { HasASize effect }
    requires room { r.old.pc + 4 < 2 ^ 64 }
    ensures answer { result ≡ answer_of (done (map_of m.old) (state_of r.old m.old) effect) }
    ensures state { state_of r.new m.new ≡ state_after (state_of r.old m.old) (done (map_of m.old) (state_of r.old m.old) effect) }
    ensures map { map_of m.new ≡ map_of m.old }
    ensures region { region_of m.new ≡ region_of m.old }
    ensures zero { slice_index r.new.x 0 ≡ slice_index r.old.x 0 }
    ensures registers_kept { result ≢ Ok Next → r.new ≡ r.old }
    ensures memory_kept { result ≢ Ok Next → m.new ≡ m.old }
{
    match effect {
        Effect::Set { rd, value } => Ok(set(r, rd, value)),
        Effect::Jump { rd, link, target } => jump(r, rd, link, target),
        Effect::Branch { taken, target } => {
            if taken {
                jump(r, 0, 0, target)
            } else {
                Ok(set(r, 0, 0))
            }
        }
        Effect::Load {
            rd,
            address,
            size,
            signed,
        } => {
            let value = m.load(address, size)?;
            Ok(set(r, rd, extended(value, size, signed)))
        }
        Effect::Store {
            address,
            size,
            value,
        } => {
            m.store(address, size, value)?;
            Ok(set(r, 0, 0))
        }
        Effect::Ask => {
            let request = Request::asked_by(r).ok_or(TrapKind::NoRequest)?;
            Ok(Event::Asks(request))
        }
        Effect::Break => Err(TrapKind::Breakpoint),
    }
}

/// Gives the register a value, and goes on after the instruction.
fn set(r: &mut Regs, rd: u8, value: u64) -> Event
    requires register { rd < 32 }
    requires room { r.old.pc + 4 < 2 ^ 64 }
    ensures event { result ≡ Next }
    ensures state { (memory : ℕ → ℕ) → state_with r.new memory ≡ with_set (state_with r.old memory) rd value }
    ensures zero { slice_index r.new.x 0 ≡ slice_index r.old.x 0 }
{
    r.write(rd, value);
    r.pc += 4;
    Event::Next
}

/// Gives the register a value, and goes to the target. The error is the kind of the trap at a target that is no multiple of 4.
fn jump(r: &mut Regs, rd: u8, link: u64, target: u64) -> Result<Event, TrapKind>
    requires { rd < 32 }
    ensures answer { (memory : ℕ → ℕ) → result ≡ answer_of (goes_to (state_with r.old memory) rd link target) }
    ensures state { (memory : ℕ → ℕ) →
        state_with r.new memory ≡ state_after (state_with r.old memory) (goes_to (state_with r.old memory) rd link target) }
    ensures zero { slice_index r.new.x 0 ≡ slice_index r.old.x 0 }
    ensures kept { result ≢ Ok Next → r.new ≡ r.old }
{
    if target % 4 != 0 {
        return Err(TrapKind::BadTarget);
    }
    r.write(rd, link);
    r.pc = target;
    Ok(Event::Next)
}

/// What a load of `size` bytes gives: the number that stands there, sign-extended or zero-extended to 64 bits.
fn extended(value: u64, size: u8, signed: bool) -> u64
    requires { IsTrue (is_size size) }
    ensures { result ≡ extended signed size value }
{
    if !signed {
        return value;
    }
    match size {
        1 => i64::from(((value % 0x100) as u8).cast_signed()).cast_unsigned(),
        2 => i64::from(((value % 0x1_0000) as u16).cast_signed()).cast_unsigned(),
        4 => i64::from(((value % 0x1_0000_0000) as u32).cast_signed()).cast_unsigned(),
        _ => value,
    }
}
