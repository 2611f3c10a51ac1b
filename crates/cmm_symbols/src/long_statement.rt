//! Names that are too long, in statements.
#![tactic(auto, using(crate::proofs::Lengths::long_none, crate::proofs::Lengths::long_more, crate::proofs::Lengths::long_append))]

ghost use Rattle.std.specs.Prelude.{◌≡◌, ◌++◌, [], ◌∷◌, List, flat_map, map};
ghost use Rattle.cmm_static_semantics.specs.Calls.{flow_names};
ghost use Rattle.cmm_static_semantics.specs.LongNames.{of_kinded, of_actual, of_callee, of_lvalue, of_range, of_span, of_exit, of_passed, of_stmt};
ghost use Rattle.cmm_symbols.specs.Noted.{long_of};
ghost use Rattle.cmm_symbols.specs.inside.Arms.{of_case};

use crate::long::{HasNames, note_each, note_kind, note_name, note_names, note_some};
use cmm_ast::{
    Actual, Arm, Callee, CalleeForm, Case, Exit, Flow, FlowForm, Kinded, Lvalue, Range, Span, Stmt,
    StmtForm,
};
use cmm_items::Items;
use cmm_static_semantics::Spot;

impl HasNames for Kinded {
    ghost names = { of_kinded };

    fn note_long(&self, best: &mut Option<Spot>) {
        note_kind(&self.kind, best);
        note_name(&self.name, best);
    }
}

impl HasNames for Actual {
    ghost names = { of_actual };

    fn note_long(&self, best: &mut Option<Spot>) {
        note_kind(&self.kind, best);
        self.value.note_long(best);
    }
}

impl HasNames for Callee {
    ghost names = { of_callee };

    fn note_long(&self, best: &mut Option<Spot>) {
        match &self.form {
            CalleeForm::Name(name) => note_name(name, best),
            CalleeForm::Memory(memory) => memory.note_long(best),
            CalleeForm::Bracketed(e) => e.note_long(best),
        }
    }
}

impl HasNames for Lvalue {
    ghost names = { of_lvalue };

    fn note_long(&self, best: &mut Option<Spot>) {
        match self {
            Lvalue::Name(name) => note_name(name, best),
            Lvalue::Memory(memory) => memory.note_long(best),
        }
    }
}

impl HasNames for Range {
    ghost names = { of_range };

    fn note_long(&self, best: &mut Option<Spot>) {
        self.from.note_long(best);
        note_some(&self.to, best);
    }
}

/// What an arm is for; what stands in its body is left out.
impl HasNames for Arm {
    ghost names = { λ arm. of_case arm.case };

    fn note_long(&self, best: &mut Option<Spot>) {
        match &self.case {
            Case::Ranges(ranges) => note_each(ranges.as_slice(), best),
            Case::Default => {}
        }
    }
}

impl HasNames for Span {
    ghost names = { of_span };

    fn note_long(&self, best: &mut Option<Spot>) {
        self.from.note_long(best);
        self.to.note_long(best);
    }
}

impl HasNames for Exit {
    ghost names = { of_exit };

    fn note_long(&self, best: &mut Option<Spot>) {
        self.index.note_long(best);
        self.count.note_long(best);
    }
}

impl HasNames for Flow {
    ghost names = { flow_names };

    fn note_long(&self, best: &mut Option<Spot>) {
        match &self.form {
            FlowForm::CutsTo(names) => note_names(names.as_slice(), best),
            FlowForm::UnwindsTo(names) => note_names(names.as_slice(), best),
            FlowForm::ReturnsTo(names) => note_names(names.as_slice(), best),
            FlowForm::Aborts => {}
            FlowForm::NeverReturns => {}
        }
    }
}

fn note_passed(values: &Option<Items<Actual>>, best: &mut Option<Spot>)
    ensures { best.new ≡ long_of best.old (of_passed values.now) }
{
    match values {
        Some(values) => note_each(values.as_slice(), best),
        None => {}
    }
}

/// A statement; what stands in the blocks of it is left out.
impl HasNames for Stmt {
    ghost names = { λ stmt. of_stmt stmt.form };

    fn note_long(&self, best: &mut Option<Spot>) {
        match &self.form {
            StmtForm::Empty => {}
            StmtForm::If { condition, .. } => condition.note_long(best),
            StmtForm::Switch { range, value, arms } => {
                note_some(range, best);
                value.note_long(best);
                note_each(arms.as_slice(), best);
            }
            StmtForm::Span { key, value, .. } => {
                key.note_long(best);
                value.note_long(best);
            }
            StmtForm::Assign { to, values } => {
                note_each(to.as_slice(), best);
                note_each(values.as_slice(), best);
            }
            StmtForm::Checked {
                result,
                left,
                right,
                flows,
                ..
            } => {
                note_name(result, best);
                left.note_long(best);
                right.note_long(best);
                note_each(flows.as_slice(), best);
            }
            StmtForm::Call {
                results,
                callee,
                actuals,
                flows,
                ..
            } => {
                note_each(results.as_slice(), best);
                callee.note_long(best);
                note_each(actuals.as_slice(), best);
                note_each(flows.as_slice(), best);
            }
            StmtForm::Jump { callee, actuals } => {
                callee.note_long(best);
                note_each(actuals.as_slice(), best);
            }
            StmtForm::Return { exit, values } => {
                note_some(exit, best);
                note_passed(values, best);
            }
            StmtForm::Label(name) => note_name(name, best),
            StmtForm::Continuation { name, parameters } => {
                note_name(name, best);
                note_each(parameters.as_slice(), best);
            }
            StmtForm::Goto(name) => note_name(name, best),
            StmtForm::Cut {
                callee,
                actuals,
                flows,
            } => {
                callee.note_long(best);
                note_each(actuals.as_slice(), best);
                note_each(flows.as_slice(), best);
            }
        }
    }
}
