//! The rows of an image's tables.

ghost use Rattle.std.specs.Prelude.{◌≡◌, if◌then◌else◌};
ghost use Rattle.cmm_image.specs.declared.rows.VariablePlace.TheVariants.{Dead};
ghost use Rattle.cmm_image.specs.SecondFormat.{is_live};

use cmm_items::Items;
use cmm_words::{Name, Width};

/// The number of a variable of a procedure, formals first.
#[derive(Clone, Copy)]
pub struct VariableNumber(pub u16);

/// The number of a continuation of a procedure, in textual order.
#[derive(Clone, Copy)]
pub struct ContinuationNumber(pub u16);

/// A callee-saves register that a procedure saves at entry.
#[derive(Clone, Copy)]
pub struct SavedRegister {
    /// Its number: 9, or 18 to 27.
    pub register: u8,
    /// How far into the frame its 8 bytes are saved.
    pub offset: u32,
}

/// A stackdata label of a procedure.
#[derive(Clone, Copy)]
pub struct StackLabelRow {
    /// How far into the frame it lies.
    pub offset: u32,
}

/// A variable of a procedure.
pub struct VariableRow {
    pub width: Width,
    /// Whether it is declared `invariant`.
    pub invariant: bool,
    pub kind: Name,
}

/// In one place, so that whoever lets one go has one call to prove.
impl Drop for VariableRow {
    fn drop(self) {
        let Self {
            width: _,
            invariant: _,
            kind: _,
        } = self;
    }
}

/// A continuation of a procedure.
pub struct ContinuationRow {
    /// How far into the frame its pair of code address and frame address lies: a multiple of 8.
    pub pair: u32,
    /// The address of its code for cuts.
    pub code: u64,
    /// The variables that take its parameters.
    pub parameters: Items<VariableNumber>,
}

/// In one place, so that whoever lets one go has one call to prove.
impl Drop for ContinuationRow {
    fn drop(self) {
        let Self {
            pair: _,
            code: _,
            parameters: _,
        } = self;
    }
}

/// A procedure.
pub struct ProcRow {
    /// The address of its code.
    pub code: u64,
    /// Its name in its unit.
    pub name: Name,
    /// The size of its frame in bytes, a multiple of 16.
    pub frame: u32,
    /// How far into its frame the return address is saved, if it is: a multiple of 8.
    pub return_at: Option<u32>,
    /// The registers that it saves, in ascending order.
    pub saved: Items<SavedRegister>,
    pub variables: Items<VariableRow>,
    /// Its stackdata labels.
    pub stack_labels: Items<StackLabelRow>,
    pub continuations: Items<ContinuationRow>,
}

/// In one place, so that whoever lets one go has one call to prove.
impl Drop for ProcRow {
    fn drop(self) {
        let Self {
            code: _,
            name: _,
            frame: _,
            return_at: _,
            saved: _,
            variables: _,
            stack_labels: _,
            continuations: _,
        } = self;
    }
}

/// An unwind exit of a site.
#[derive(Clone, Copy)]
pub struct UnwindRow {
    pub continuation: ContinuationNumber,
    /// The address of the code at which unwinding goes on.
    pub landing: u64,
}

/// Where a variable is kept while its activation is suspended at a site.
#[derive(Clone, Copy)]
pub enum VariablePlace {
    /// Nowhere: no exit of the site leads to a read of it.
    Dead,
    /// In 8 bytes, so far into the frame.
    Slot(u32),
    /// In the callee-saves register of this number: 9, or 18 to 27.
    Register(u8),
}

impl VariablePlace {
    /// Whether the variable is kept anywhere.
    pub(crate) fn is_live(&self) -> bool
        ensures { result ≡ is_live self.now }
    {
        match self {
            VariablePlace::Dead => false,
            VariablePlace::Slot(_) | VariablePlace::Register(_) => true,
        }
    }

    /// This place of a variable that is live; none of one that is not.
    pub(crate) fn where_live(&self, live: bool) -> VariablePlace
        ensures { result ≡ (if live then self.now else Dead) }
    {
        if live { *self } else { VariablePlace::Dead }
    }
}

/// What the innermost span with a token gives the site.
#[derive(Clone, Copy)]
pub struct SpanRow {
    pub token: u64,
    pub value: u64,
}

/// A call site.
pub struct SiteRow {
    /// The address behind its call, at which the first of its alternate exits stands.
    pub return_address: u64,
    /// The procedure that it is in, by its place in the image.
    pub procedure: u32,
    /// Its number in its procedure.
    pub number: u32,
    /// Whether it has `never returns`.
    pub never_returns: bool,
    /// Whether it has `also aborts`.
    pub aborts: bool,
    /// How many values it yields, if it is a yield or a checked operator.
    pub yield_values: Option<u8>,
    /// The widths of its results.
    pub results: Items<Width>,
    /// Its alternate exits.
    pub returns: Items<ContinuationNumber>,
    pub unwinds: Items<UnwindRow>,
    /// Its cut exits.
    pub cuts: Items<ContinuationNumber>,
    /// Where each variable of its procedure is kept.
    pub variables: Items<VariablePlace>,
    /// The spans round it, in ascending order of tokens.
    pub spans: Items<SpanRow>,
}

/// In one place, so that whoever lets one go has one call to prove.
impl Drop for SiteRow {
    fn drop(self) {
        let Self {
            return_address: _,
            procedure: _,
            number: _,
            never_returns: _,
            aborts: _,
            yield_values: _,
            results: _,
            returns: _,
            unwinds: _,
            cuts: _,
            variables: _,
            spans: _,
        } = self;
    }
}

/// An exported data label.
pub struct LabelRow {
    /// Its link name.
    pub name: Name,
    pub address: u64,
}

/// In one place, so that whoever lets one go has one call to prove.
impl Drop for LabelRow {
    fn drop(self) {
        let Self {
            name: _,
            address: _,
        } = self;
    }
}

/// A global register.
pub struct GlobalRow {
    pub width: Width,
    pub name: Name,
}

/// In one place, so that whoever lets one go has one call to prove.
impl Drop for GlobalRow {
    fn drop(self) {
        let Self { width: _, name: _ } = self;
    }
}
