//! Places for locals: registers by colouring, and slots for the others.

ghost use Rattle.std.specs.Prelude.{◌≡◌, ◌<◌, ◌+◌, ◌*◌, ◌^◌, ℕ, IfOk, MatchOption, Some, length};
ghost use Rattle.std.specs.Bool.{OnTrue, OnFalse};
ghost use Rattle.cmm_abi.specs.Registers.{callee_saves};
ghost use Rattle.cmm_bitset.specs.Sets.{union};
ghost use Rattle.cmm_colour.specs.Colours.{AreColours, colour_of};
ghost use Rattle.cmm_live.specs.Exact.{AreLiveSets};
ghost use Rattle.cmm_live.specs.Locals.{local_count};
ghost use Rattle.cmm_allocate.specs.Allocated.{AreAllocated, temporaries};
ghost use Rattle.cmm_allocate.specs.Placed.{ArePlaces};
ghost use Rattle.cmm_allocate.specs.inside.Colouring.{AreApart, AreKept, AreRegisters, HaveNoColour, IsColoured, IsShared, home, next_slot, register_in, register_of};

use crate::classes::{Classes, sort_locals};
use crate::hints::hints;
use cmm_abi::registers::CALLEE_SAVES;
use cmm_bitset::BitSet;
use cmm_chain::Location;
use cmm_colour::{Colours, Conflicts, colour};
use cmm_graph::Graph;
use cmm_items::Items;
use cmm_live::{LiveSets, interference_within, interference_within_both};
use std::alloc::{AllocError, Global};

/// The temporary registers that locals get: t3 to t6 and, if those are taken or values come or go in these, a2 to a5.
pub(crate) const TEMPORARIES: [u8; 8] = [28, 29, 30, 31, 12, 13, 14, 15];

/// The register of a local, if it is of the class and has a colour.
fn register_of(class: &BitSet, colours: &Colours, registers: &[u8], number: u32) -> Option<u8>
    requires number { number < length class.now }
    requires count { length colours.now ≡ length class.now }
    requires below { (v c : ℕ) → colour_of colours.now v ≡ Some c → c < length registers.now }
    ensures { result ≡ register_of class.now colours.now registers.now number }
{
    if !class.has(number) {
        return None;
    }
    let colour = colours.of(number)?;
    Some(registers[colour as usize])
}

/// A class of locals, and the colours of those that have one.
#[derive(Drop)]
struct Coloured {
    class: BitSet,
    colours: Colours,
}

/// Registers for the locals.
#[derive(Drop)]
struct Registers {
    /// The locals that suit temporary registers, coloured by these.
    temporary: Coloured,
    /// Locals that are coloured by the callee-saves registers: those that suit them, and maybe those that have no temporary one.
    callee_saves: Coloured,
}

/// Colours by the callee-saves registers.
fn colour_saved(alloc: Global, conflicts: &Conflicts) -> Result<Colours, AllocError>
    ensures { IfOk result (λ colours. AreColours conflicts.now (length callee_saves) colours) }
{
    let k = CALLEE_SAVES.len() as u32;
    colour(alloc, conflicts, k, &[])
}

/// Colours the locals that suit registers of either kind by the registers of that kind.
fn colour_apart(alloc: Global, g: &Graph, live: &LiveSets) -> Result<Registers, AllocError>
    requires few { local_count g.now < 2 ^ 32 }
    requires live { AreLiveSets g.now live.now }
    ensures { IfOk result (λ r. AreApart g.now live.now r.temporary.class r.temporary.colours r.callee_saves.class r.callee_saves.colours) }
{
    let Classes {
        temporary,
        callee_saves,
    } = sort_locals(alloc, g, live)?;
    let (among_temporary, among_saved) = interference_within_both(
        alloc,
        g,
        live,
        &temporary,
        &callee_saves,
    )?;
    let hints = hints(alloc, g)?;
    let colours = colour(alloc, &among_temporary, TEMPORARIES.len() as u32, &hints)?;
    let others = colour_saved(alloc, &among_saved)?;
    Ok(Registers {
        temporary: Coloured {
            class: temporary,
            colours,
        },
        callee_saves: Coloured {
            class: callee_saves,
            colours: others,
        },
    })
}

/// The members of a class that have no colour.
fn without_colour(alloc: Global, class: &BitSet, colours: &Colours) -> Result<BitSet, AllocError>
    requires { length colours.now ≡ length class.now }
    ensures { IfOk result (λ left. HaveNoColour class.now colours.now (length class.now) left) }
{
    let mut left = BitSet::new(alloc, class.size())?;
    for number in 0..class.size() {
        if class.has(number) && colours.of(number).is_none() {
            left.insert(number);
        }
    }
    Ok(left)
}

/// A class and more locals, if there are any that it has not.
fn widened(alloc: Global, class: &BitSet, more: &BitSet) -> Result<Option<BitSet>, AllocError>
    requires { length more.now ≡ length class.now }
    ensures { IfOk result (λ found. MatchOption found (union class.now more.now ≡ class.now) (λ wider. wider ≡ union class.now more.now)) }
{
    let mut wider = BitSet::new(alloc, class.size())?;
    wider.join(class);
    if wider.join(more) {
        Ok(Some(wider))
    } else {
        Ok(None)
    }
}

/// Whether each member of a class that has a colour has one among others too.
fn is_kept(
    alloc: Global,
    class: &BitSet,
    colours: &Colours,
    others: &Colours,
) -> Result<bool, AllocError>
    requires colours { length colours.now ≡ length class.now }
    requires others { length others.now ≡ length class.now }
    ensures kept { IfOk result (λ kept. OnTrue kept (AreKept class.now colours.now others.now)) }
    ensures lost { IfOk result (λ kept. OnFalse kept (AreKept class.now colours.now others.now → ⊥)) }
{
    let mut left = without_colour(alloc, class, colours)?;
    let lost = left.join(&without_colour(alloc, class, others)?);
    Ok(!lost)
}

/// Lets more locals have the registers of a class, if each member of the class that has one still gets one then.
fn share(
    alloc: Global,
    g: &Graph,
    live: &LiveSets,
    first: Coloured,
    more: &BitSet,
) -> Result<Coloured, AllocError>
    requires few { local_count g.now < 2 ^ 32 }
    requires live { AreLiveSets g.now live.now }
    requires class { length first.class ≡ local_count g.now }
    requires more { length more.now ≡ local_count g.now }
    requires coloured { IsColoured g.now first.class (length callee_saves) first.colours }
    ensures { IfOk result (λ c. IsShared g.now first.class first.colours more.now c.class c.colours) }
{
    let Some(class) = widened(alloc, &first.class, more)? else {
        return Ok(first);
    };
    let conflicts = interference_within(alloc, g, live, &class)?;
    let colours = colour_saved(alloc, &conflicts)?;
    if is_kept(alloc, &first.class, &first.colours, &colours)? {
        Ok(Coloured { class, colours })
    } else {
        Ok(first)
    }
}

/// Colours the locals by the registers that there are for each, and lets those that have no temporary register share the callee-saves registers.
fn colour_both(alloc: Global, g: &Graph, live: &LiveSets) -> Result<Registers, AllocError>
    requires few { local_count g.now < 2 ^ 32 }
    requires live { AreLiveSets g.now live.now }
    ensures { IfOk result (λ r. AreRegisters g.now live.now r.temporary.class r.temporary.colours r.callee_saves.class r.callee_saves.colours) }
{
    let Registers {
        temporary,
        callee_saves,
    } = colour_apart(alloc, g, live)?;
    let left = without_colour(alloc, &temporary.class, &temporary.colours)?;
    let callee_saves = share(alloc, g, live, callee_saves, &left)?;
    Ok(Registers {
        temporary,
        callee_saves,
    })
}

impl Registers {
    /// The register of a local, if it has one.
    fn of(&self, number: u32) -> Option<Location>
        requires number { number < length self.now.temporary.class }
        requires size { length self.now.callee_saves.class ≡ length self.now.temporary.class }
        requires temporary { length self.now.temporary.colours ≡ length self.now.temporary.class }
        requires callee_saves { length self.now.callee_saves.colours ≡ length self.now.callee_saves.class }
        requires few { (v c : ℕ) → colour_of self.now.temporary.colours v ≡ Some c → c < length temporaries }
        requires below { (v c : ℕ) → colour_of self.now.callee_saves.colours v ≡ Some c → c < length callee_saves }
        ensures { result ≡ register_in self.now.temporary.class self.now.temporary.colours self.now.callee_saves.class self.now.callee_saves.colours number }
    {
        let Registers {
            temporary,
            callee_saves,
        } = self;
        let first = register_of(&temporary.class, &temporary.colours, &TEMPORARIES, number);
        if let Some(register) = first {
            return Some(Location::Temp(register));
        }
        let second = register_of(
            &callee_saves.class,
            &callee_saves.colours,
            &CALLEE_SAVES,
            number,
        );
        Some(Location::Saved(second?))
    }
}

/// Where a local is that has a register, or none, and where the slots end then that ended at an offset.
fn home(register: Option<Location>, end: u32) -> (Location, u32)
    requires { end + 8 < 2 ^ 32 }
    ensures place { result.0 ≡ home register end }
    ensures end { result.1 ≡ next_slot register end }
{
    match register {
        Some(place) => (place, end),
        None => (Location::Slot(end), end + 8),
    }
}

/// The place of each local of a graph, by its number, where just these locals are live. Locals that are live at no site, and to which no cut
/// statement leads, are coloured by the temporary registers 12 to 15 and 28 to 31; those that are live at some site, and on no cut exit, by the
/// callee-saves registers. Who is of the first kind and gets no temporary register is then coloured by the callee-saves registers too, if that
/// takes a register from none of the second kind. Who gets no colour has a slot. An error is want of memory.
pub fn places(alloc: Global, g: &Graph, live: &LiveSets) -> Result<Items<Location>, AllocError>
    requires few { 8 * local_count g.now + 8 < 2 ^ 32 }
    requires live { AreLiveSets g.now live.now }
    ensures allocated { IfOk result (λ locals. AreAllocated g.now live.now locals) }
    ensures suit { IfOk result (λ locals. ArePlaces g.now live.now locals) }
{
    cmm_live::laws::sets_are_closed();
    cmm_live::laws::sets_decide_conflicts();
    let registers = colour_both(alloc, g, live)?;
    let count = g.variables + g.temporaries;
    let mut locals = Items::with_capacity(alloc, count as usize)?;
    let mut end = 0;
    for number in 0..count {
        let (place, next) = home(registers.of(number), end);
        locals.push(place)?;
        end = next;
    }
    Ok(locals)
}
