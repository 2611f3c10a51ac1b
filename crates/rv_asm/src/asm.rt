//! A list of parts that grows at its end.

ghost use Rattle.std.specs.Prelude.{◌≡◌, ◌≢◌, ◌%◌, ◌+◌, ◌<◌, ◌≤◌, ◌^◌, ◌↔◌, ◌++◌, ◌∷◌, [], length, Some, IsTrue, true, false, slice_get, slice_set, IfOk, OnOk, OnErr};
ghost use Rattle.std.specs.List.{All};
ghost use Rattle.rv_table.specs.Table.{IsValid};
ghost use Rattle.rv_asm.specs.Filling.{AreApart};
ghost use Rattle.rv_asm.specs.Finishing.{HavePlaces, RunAsParts, fix_symbols, symbols_of};
ghost use Rattle.rv_asm.specs.Reach.{HasForms};
ghost use Rattle.rv_asm.specs.Sizes.{all_longest};
ghost use Rattle.rv_asm.specs.Assembly.{ArePlaced, Fits, IsInner, IsLabel, IsTarget, has_branch, table_limit};

use crate::finishing::{Placed, finish, fits};
use crate::part::{Label, Meaning, Part};
use cmm_items::{Boxed, Items};
use cmm_words::Cmp;
use rv_table::Instr;
use std::alloc::{AllocError, Global};
use std::marker::Model;

/// Code that is assembled, part by part. Contracts see it as the parts so far and the meanings of the labels.
pub struct Asm {
    alloc: Global,
    /// The parts, and behind them room for the place of each label that has none yet.
    room: Vec<Part>,
    used: usize,
    labels: Vec<Meaning>,
}

/// In one place, so that whoever lets one go has one call to prove.
impl Drop for Asm {
    fn drop(self) {
        let Self {
            alloc: _,
            room: _,
            used: _,
            labels: _,
        } = self;
    }
}

impl Model for Asm {
    ghost use Rattle.std.specs.Prelude.{take};
    ghost use Rattle.rv_asm.specs.Assembly.{Assembly};
    ghost use Rattle.rv_asm.specs.inside.Sound.{IsBuilt};

    ghost Value = { Assembly };

    ghost view = { λ a. record { parts = take a.used a.room.items; labels = a.labels.items } };

    ghost invariant = { λ a. IsBuilt a.room.items a.used a.labels.items };
}

impl Asm {
    /// No parts. Takes no memory.
    pub fn new(alloc: Global) -> Asm
        ensures parts { result.parts ≡ [] }
        ensures labels { result.labels ≡ [] }
    {
        Asm {
            alloc,
            room: Vec::new(alloc),
            used: 0,
            labels: Vec::new(alloc),
        }
    }

    /// Where its memory comes from, so that whoever appends parts may take memory of their own.
    pub fn alloc(&self) -> Global {
        self.alloc
    }

    /// How many labels were made.
    pub fn label_count(&self) -> usize
        ensures { result ≡ length self.now.labels }
    {
        self.labels.len()
    }

    /// Whether the parts have room below 2^30 from an address on, each in its longest form: what `finish` asks.
    pub fn fits(&self, base: u64) -> bool
        requires { base ≤ 2 ^ 30 }
        ensures { IsTrue result ↔ (base + all_longest self.now.parts ≤ 2 ^ 30) }
    {
        fits(&self.room[..self.used], &self.labels, base)
    }

    /// Tells that each label with a place among the parts is known to have one.
    pub fn placed_labels(&self)
        ensures { ArePlaced self.now.labels self.now.parts }
    {
        let _ = &self.labels;
    }

    /// Makes a label for a place in the code. An error is want of memory, and nothing is changed.
    pub fn label(&mut self) -> Result<Label, AllocError>
        requires { length self.old.labels < 2 ^ 32 }
        ensures number { IfOk result (λ label. label.number ≡ length self.old.labels) }
        ensures parts { self.new.parts ≡ self.old.parts }
        ensures labels { OnOk result (self.new.labels ≡ self.old.labels ++ Meaning.Inner false ∷ []) }
        ensures kept { OnErr result (self.new.labels ≡ self.old.labels) }
    {
        let number = self.labels.len() as u32;
        self.room.push(Part::Place(Label { number }))?;
        self.labels.push(Meaning::Inner { placed: false })?;
        Ok(Label { number })
    }

    /// Makes a label for a symbol outside of the code, by the symbol's number, and tells whether control can go to it. An error is want
    /// of memory, and nothing is changed.
    pub fn outer(&mut self, symbol: u32, target: bool) -> Result<Label, AllocError>
        requires { length self.old.labels < 2 ^ 32 }
        ensures number { IfOk result (λ label. label.number ≡ length self.old.labels) }
        ensures parts { self.new.parts ≡ self.old.parts }
        ensures labels { OnOk result (self.new.labels ≡ self.old.labels ++ Meaning.Outer symbol target ∷ []) }
        ensures kept { OnErr result (self.new.labels ≡ self.old.labels) }
    {
        let number = self.labels.len() as u32;
        self.labels.push(Meaning::Outer { symbol, target })?;
        Ok(Label { number })
    }

    /// Places a label here. Takes no memory.
    pub fn place(&mut self, label: Label)
        requires { slice_get self.old.labels label.number ≡ Some (Meaning.Inner false) }
        ensures parts { self.new.parts ≡ self.old.parts ++ Part.Place label ∷ [] }
        ensures labels { self.new.labels ≡ slice_set self.old.labels label.number (Meaning.Inner true) }
    {
        self.room[self.used] = Part::Place(label);
        self.used += 1;
        self.labels[label.number as usize] = Meaning::Inner { placed: true };
    }

    /// Adds an instruction. An error is want of memory, and nothing is changed.
    pub fn emit(&mut self, instruction: Instr) -> Result<(), AllocError>
        requires { IsValid instruction }
        ensures parts { OnOk result (self.new.parts ≡ self.old.parts ++ Part.Single instruction ∷ []) }
        ensures kept { OnErr result (self.new.parts ≡ self.old.parts) }
        ensures labels { self.new.labels ≡ self.old.labels }
    {
        self.add(Part::Single(instruction))
    }

    /// Adds a branch: to the label if the comparison holds of two registers, and on otherwise. An error is want of memory, and
    /// nothing is changed.
    pub fn branch(&mut self, compare: Cmp, left: u8, right: u8, to: Label) -> Result<(), AllocError>
        requires compare { IsTrue (has_branch compare) }
        requires left { left < 32 }
        requires right { right < 32 }
        requires to { IsInner self.old.labels to }
        ensures parts { OnOk result (self.new.parts ≡ self.old.parts ++ Part.Branch compare left right to ∷ []) }
        ensures kept { OnErr result (self.new.parts ≡ self.old.parts) }
        ensures labels { self.new.labels ≡ self.old.labels }
    {
        self.add(Part::Branch {
            compare,
            left,
            right,
            to,
        })
    }

    /// Adds a jump to the label. An error is want of memory, and nothing is changed.
    pub fn jump(&mut self, to: Label) -> Result<(), AllocError>
        requires { IsTarget self.old.labels to }
        ensures parts { OnOk result (self.new.parts ≡ self.old.parts ++ Part.Jump to ∷ []) }
        ensures kept { OnErr result (self.new.parts ≡ self.old.parts) }
        ensures labels { self.new.labels ≡ self.old.labels }
    {
        self.add(Part::Jump(to))
    }

    /// Adds a call of the label: a jump that leaves the address after it in register 1. An error is want of memory, and nothing is
    /// changed.
    pub fn call(&mut self, to: Label) -> Result<(), AllocError>
        requires { IsTarget self.old.labels to }
        ensures parts { OnOk result (self.new.parts ≡ self.old.parts ++ Part.Call to ∷ []) }
        ensures kept { OnErr result (self.new.parts ≡ self.old.parts) }
        ensures labels { self.new.labels ≡ self.old.labels }
    {
        self.add(Part::Call(to))
    }

    /// Gives register `rd` the label's address, that of a symbol by its value. An error is want of memory, and nothing is changed.
    pub fn address(&mut self, rd: u8, of: Label) -> Result<(), AllocError>
        requires written { rd ≢ 0 }
        requires register { rd < 32 }
        requires label { IsLabel self.old.labels of }
        ensures parts { OnOk result (self.new.parts ≡ self.old.parts ++ Part.Address rd of ∷ []) }
        ensures kept { OnErr result (self.new.parts ≡ self.old.parts) }
        ensures labels { self.new.labels ≡ self.old.labels }
    {
        self.add(Part::Address { rd, of })
    }

    /// Adds a table of one-word jumps: the word with index `i` leads to label `i`, and control that comes to the place after these
    /// words goes on after the part. An error is want of memory, and nothing is changed.
    pub fn table(&mut self, to: &[Label]) -> Result<(), AllocError>
        requires few { length to.now ≤ table_limit }
        requires inner { All (IsInner self.old.labels) to.now }
        ensures parts { OnOk result (self.new.parts ≡ self.old.parts ++ Part.Table to.now ∷ []) }
        ensures kept { OnErr result (self.new.parts ≡ self.old.parts) }
        ensures labels { self.new.labels ≡ self.old.labels }
    {
        let labels = Items::from_vec(to.to_vec(self.alloc)?);
        self.add(Part::Table(Boxed::new(self.alloc, labels)?))
    }

    /// The bytes of the parts for code at an address. A branch, a jump or a call is one word where that reaches its label (RISC-V ISA, 2.5:
    /// 4 KiB back and 2 bytes less ahead for a branch, 1 MiB for the others), and else has the form that reaches any label. An error is
    /// want of memory.
    pub fn finish(self, base: u64) -> Result<Placed, AllocError>
        requires aligned { base % 4 ≡ 0 }
        requires room { base + all_longest self.parts ≤ 2 ^ 30 }
        ensures runs { IfOk result (λ p. RunAsParts self.labels self.parts base p.bytes p.places p.fixes) }
        ensures size { IfOk result (λ p. length p.bytes ≤ all_longest self.parts) }
        ensures places { IfOk result (λ p. HavePlaces self.labels self.parts base (length p.bytes) p.places) }
        ensures symbols { IfOk result (λ p. fix_symbols p.fixes ≡ symbols_of self.labels self.parts) }
        ensures apart { IfOk result (λ p. AreApart 0 p.fixes (length p.bytes)) }
        ensures whole { IfOk result (λ p. length p.bytes % 4 ≡ 0) }
        ensures forms { IfOk result (λ p. HasForms self.labels self.parts base (length p.bytes) p.places) }
        ensures fit { IfOk result (λ p. All (Fits self.labels) self.parts) }
    {
        finish(self.alloc, &self.room[..self.used], &self.labels, base)
    }

    /// Adds a part. An error is want of memory, and nothing is changed.
    fn add(&mut self, part: Part) -> Result<(), AllocError>
        requires fits { Fits self.old.labels part }
        requires new { (l : Label) → part ≢ Part.Place l }
        ensures parts { OnOk result (self.new.parts ≡ self.old.parts ++ part ∷ []) }
        ensures kept { OnErr result (self.new.parts ≡ self.old.parts) }
        ensures labels { self.new.labels ≡ self.old.labels }
    {
        self.room.push(Part::Place(Label { number: 0 }))?;
        self.room[self.used] = part;
        self.used += 1;
        Ok(())
    }
}
