//! What the code of nodes is made over.

ghost use Rattle.std.specs.Prelude.{◌≡◌};
ghost use Rattle.cmm_emit.specs.Naming.{named_at};

use cmm_chain::{Frame, Location};
use cmm_items::Items;
use rv_asm::Label;

/// What the code of a procedure's nodes is made over.
pub struct Context {
    /// How many variables the procedure has. Its temporaries are numbered after them.
    pub variables: u32,
    /// The place of each local.
    pub places: Items<Location>,
    /// The places of the locals that are made 0 as an activation begins.
    pub zeroed: Items<Location>,
    pub frame: Frame,
    /// The label of the landing of each continuation.
    pub landings: Items<Label>,
    /// The label of each node.
    pub nodes: Items<Label>,
    /// The label of each site, where control comes back to a node that waits there.
    pub sites: Items<Label>,
}

/// In one place, so that whoever lets one go has one call to prove.
impl Drop for Context {
    fn drop(self) {
        let Self {
            variables: _,
            places: _,
            zeroed: _,
            frame: _,
            landings: _,
            nodes: _,
            sites: _,
        } = self;
    }
}

/// The labels of a unit, for what its nodes name outside of their procedure: of each number of the program, where the unit names it or has it.
pub struct Targets {
    /// The code of each procedure.
    pub procedures: Items<Option<Label>>,
    /// The address of each data label.
    pub data_labels: Items<Option<Label>>,
    /// The offset of each global register in its region.
    pub registers: Items<Option<Label>>,
    /// Where a run is ended for want of room in the stack.
    pub limit: Label,
    /// Where the client is called.
    pub client: Label,
}

/// In one place, so that whoever lets one go has one call to prove.
impl Drop for Targets {
    fn drop(self) {
        let Self {
            procedures: _,
            data_labels: _,
            registers: _,
            limit: _,
            client: _,
        } = self;
    }
}

/// The label of what is named, by its number in the program.
pub(crate) fn named_at(labels: &[Option<Label>], number: u32) -> Label
    ensures { result ≡ named_at labels.now number }
{
    match labels.get(number as usize) {
        Some(Some(label)) => *label,
        _ => Label { number: 0 },
    }
}
