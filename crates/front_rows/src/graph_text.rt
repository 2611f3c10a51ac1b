//! A graph as text: a line for each node, with its number, what it does, and where it leads.
//!
//! Variables are `v0`, `v1`, .., temporaries `t0`, nodes `n0`, call sites `s0`, continuations `k0`, global registers `r0`
//! and stackdata labels `d0`; `p0` is the code of a procedure and `a0` a data label. An operator is followed by the width of
//! its operands.

use cmm_graph::{
    Argument, Arm, Comparison, ContinuationId, Destination, Exits, Graph, HostCall, Local, NodeId,
    NodeKind, Operand, Rvalue, Variable,
};
use cmm_program::{Range, Target};
use cmm_words::{Cmp, Constant, Op1, Op2};
use std::fmt;

/// What has a text in that of a graph.
pub(crate) trait Textual {
    fn show<W: fmt::Write>(&self, f: &mut fmt::Formatter<W>) -> fmt::Result;
}

/// A part of a graph, which prints as its text.
#[derive(Drop)]
pub(crate) struct Text<'a, T>(pub(crate) &'a T);

impl<T: Textual> fmt::Display for Text<'_, T> {
    fn fmt<W: fmt::Write>(&self, f: &mut fmt::Formatter<W>) -> fmt::Result {
        self.0.show(f)
    }
}

impl Textual for NodeId {
    fn show<W: fmt::Write>(&self, f: &mut fmt::Formatter<W>) -> fmt::Result {
        let number = self.number;
        write!(f, "n{number}")
    }
}

impl Textual for Variable {
    fn show<W: fmt::Write>(&self, f: &mut fmt::Formatter<W>) -> fmt::Result {
        let number = self.number;
        write!(f, "v{number}")
    }
}

impl Textual for ContinuationId {
    fn show<W: fmt::Write>(&self, f: &mut fmt::Formatter<W>) -> fmt::Result {
        let number = self.number;
        write!(f, "k{number}")
    }
}

impl Textual for Local {
    fn show<W: fmt::Write>(&self, f: &mut fmt::Formatter<W>) -> fmt::Result {
        match self {
            Local::Variable(variable) => variable.show(f),
            Local::Temporary(temporary) => write!(f, "t{}", temporary.number),
        }
    }
}

/// A number, or a procedure or a data label with a number of bytes added.
impl Textual for Constant {
    fn show<W: fmt::Write>(&self, f: &mut fmt::Formatter<W>) -> fmt::Result {
        match *self {
            Constant::Number(word, _) => write!(f, "{word}"),
            Constant::Code { proc, plus: 0 } => write!(f, "p{proc}"),
            Constant::Code { proc, plus } => write!(f, "p{proc}+{plus}"),
            Constant::Address { label, plus: 0 } => write!(f, "a{label}"),
            Constant::Address { label, plus } => write!(f, "a{label}+{plus}"),
        }
    }
}

impl Textual for Operand {
    fn show<W: fmt::Write>(&self, f: &mut fmt::Formatter<W>) -> fmt::Result {
        match self {
            Operand::Constant(constant) => constant.show(f),
            Operand::Local(local) => local.show(f),
            Operand::Stackdata(label) => write!(f, "d{}", label.number),
            Operand::Continuation(continuation) => continuation.show(f),
        }
    }
}

impl Textual for Argument {
    fn show<W: fmt::Write>(&self, f: &mut fmt::Formatter<W>) -> fmt::Result {
        write!(f, "{}:{}", Text(&self.value), self.width.bits())
    }
}

/// The name of an operator of one operand in the language.
fn unary_name(operator: Op1) -> &'static str {
    match operator {
        Op1::Com => "com",
        Op1::Neg => "neg",
    }
}

/// The name of an operator of two operands in the language.
fn binary_name(operator: Op2) -> &'static str {
    match operator {
        Op2::Add => "add",
        Op2::Sub => "sub",
        Op2::Mul => "mul",
        Op2::And => "and",
        Op2::Or => "or",
        Op2::Xor => "xor",
        Op2::Shl => "shl",
        Op2::Shrl => "shrl",
        Op2::Shra => "shra",
        Op2::Rotl => "rotl",
        Op2::Rotr => "rotr",
        Op2::Divu => "divu",
        Op2::Modu => "modu",
        Op2::Div => "div",
        Op2::Mod => "mod",
        Op2::Quot => "quot",
        Op2::Rem => "rem",
    }
}

/// The name of a comparison in the language.
fn comparison_name(operator: Cmp) -> &'static str {
    match operator {
        Cmp::Eq => "eq",
        Cmp::Ne => "ne",
        Cmp::Lt => "lt",
        Cmp::Le => "le",
        Cmp::Gt => "gt",
        Cmp::Ge => "ge",
        Cmp::Ltu => "ltu",
        Cmp::Leu => "leu",
        Cmp::Gtu => "gtu",
        Cmp::Geu => "geu",
    }
}

impl Textual for Comparison {
    fn show<W: fmt::Write>(&self, f: &mut fmt::Formatter<W>) -> fmt::Result {
        let name = comparison_name(self.operator);
        let bits = self.width.bits();
        write!(
            f,
            "{name}.{bits} {}, {}",
            Text(&self.left),
            Text(&self.right)
        )
    }
}

impl Textual for Rvalue {
    fn show<W: fmt::Write>(&self, f: &mut fmt::Formatter<W>) -> fmt::Result {
        match *self {
            Rvalue::Copy(operand) => operand.show(f),
            Rvalue::Register(register) => write!(f, "r{}", register.number),
            Rvalue::Load {
                width,
                aligned,
                address,
            } => {
                let bits = width.bits();
                write!(f, "load.{bits} aligned {aligned} {}", Text(&address))
            }
            Rvalue::Unary {
                operator,
                width,
                operand,
            } => {
                let name = unary_name(operator);
                let bits = width.bits();
                write!(f, "{name}.{bits} {}", Text(&operand))
            }
            Rvalue::Binary {
                operator,
                width,
                left,
                right,
            } => {
                let name = binary_name(operator);
                let bits = width.bits();
                write!(f, "{name}.{bits} {}, {}", Text(&left), Text(&right))
            }
            Rvalue::Compare(test) => test.show(f),
            Rvalue::SignExtend { from, to, operand } => {
                let from = from.bits();
                let to = to.bits();
                write!(f, "sx.{from} {} to {to}", Text(&operand))
            }
            Rvalue::LowBits { from, to, operand } => {
                let from = from.bits();
                let to = to.bits();
                write!(f, "lobits.{from} {} to {to}", Text(&operand))
            }
        }
    }
}

impl Textual for Target {
    fn show<W: fmt::Write>(&self, f: &mut fmt::Formatter<W>) -> fmt::Result {
        match self {
            Target::Variable(number, _) => write!(f, "v{number}"),
            Target::Register(number, _) => write!(f, "r{number}"),
        }
    }
}

impl Textual for Destination {
    fn show<W: fmt::Write>(&self, f: &mut fmt::Formatter<W>) -> fmt::Result {
        match self {
            Destination::Target(target) => target.show(f),
            Destination::Temporary(temporary) => write!(f, "t{}", temporary.number),
        }
    }
}

/// Some things, with commas between them.
fn show_list<T: Textual, W: fmt::Write>(list: &[T], f: &mut fmt::Formatter<W>) -> fmt::Result {
    let mut comma = "";
    for item in list {
        write!(f, "{comma}{}", Text(item))?;
        comma = ", ";
    }
    Ok(())
}

impl Textual for Range {
    fn show<W: fmt::Write>(&self, f: &mut fmt::Formatter<W>) -> fmt::Result {
        let from = self.from;
        let to = self.to;
        write!(f, "{from}..{to}")
    }
}

impl Textual for Arm {
    fn show<W: fmt::Write>(&self, f: &mut fmt::Formatter<W>) -> fmt::Result {
        show_list(self.ranges.as_slice(), f)?;
        write!(f, " -> {}", Text(&self.to))
    }
}

/// The continuations of one kind of exit, if there are any.
fn show_exits<W: fmt::Write>(
    kind: &str,
    continuations: &[ContinuationId],
    f: &mut fmt::Formatter<W>,
) -> fmt::Result {
    if continuations.is_empty() {
        return Ok(());
    }
    write!(f, " {kind} ")?;
    show_list(continuations, f)
}

impl Textual for Exits {
    fn show<W: fmt::Write>(&self, f: &mut fmt::Formatter<W>) -> fmt::Result {
        match &self.normal {
            Some(node) => write!(f, "-> {}", Text(node))?,
            None => write!(f, "never returns")?,
        }
        show_exits("returns", self.returns.as_slice(), f)?;
        show_exits("unwinds", self.unwinds.as_slice(), f)?;
        show_exits("cuts", self.cuts.as_slice(), f)
    }
}

impl Textual for HostCall {
    fn show<W: fmt::Write>(&self, f: &mut fmt::Formatter<W>) -> fmt::Result {
        match self {
            HostCall::PutByte(value) => write!(f, "putbyte {}", Text(value)),
            HostCall::GetByte(to) => write!(f, "{} = getbyte", Text(to)),
        }
    }
}

/// What enters a procedure or takes values from an exit, and who leaves one.
fn show_transfer<W: fmt::Write>(kind: &NodeKind, f: &mut fmt::Formatter<W>) -> fmt::Result {
    match kind {
        NodeKind::Call {
            site,
            callee,
            arguments,
            exits,
        } => {
            write!(f, "call s{} {} (", site.number, Text(callee))?;
            show_list(arguments.as_slice(), f)?;
            write!(f, ") {}", Text(exits.get()))
        }
        NodeKind::Yield {
            site,
            values,
            exits,
        } => {
            write!(f, "yield s{} (", site.number)?;
            show_list(values.as_slice(), f)?;
            write!(f, ") {}", Text(exits.get()))
        }
        NodeKind::Jump { callee, arguments } => {
            write!(f, "jump {} (", Text(callee))?;
            show_list(arguments.as_slice(), f)?;
            write!(f, ")")
        }
        NodeKind::Cut { to, arguments, own } => {
            write!(f, "cut to {} (", Text(to))?;
            show_list(arguments.as_slice(), f)?;
            write!(f, ")")?;
            show_exits("cuts", own.as_slice(), f)
        }
        NodeKind::Return {
            exit,
            alternates,
            results,
        } => {
            write!(f, "return {exit}/{alternates} (")?;
            show_list(results.as_slice(), f)?;
            write!(f, ")")
        }
        _ => Ok(()),
    }
}

impl Textual for NodeKind {
    fn show<W: fmt::Write>(&self, f: &mut fmt::Formatter<W>) -> fmt::Result {
        match self {
            NodeKind::Entry { formals, next } => {
                write!(f, "entry (")?;
                show_list(formals.as_slice(), f)?;
                write!(f, ") -> {}", Text(next))
            }
            NodeKind::CopyIn { to, next } => {
                write!(f, "copyin (")?;
                show_list(to.as_slice(), f)?;
                write!(f, ") -> {}", Text(next))
            }
            NodeKind::Assign { to, value, next } => {
                write!(f, "{} = {} -> {}", Text(to), Text(value), Text(next))
            }
            NodeKind::Store {
                width,
                aligned,
                address,
                value,
                next,
            } => {
                let bits = width.bits();
                write!(
                    f,
                    "store.{bits} aligned {aligned} {}, {} -> {}",
                    Text(address),
                    Text(value),
                    Text(next)
                )
            }
            NodeKind::Branch {
                test,
                then,
                otherwise,
            } => {
                write!(
                    f,
                    "if {} -> {} else {}",
                    Text(test),
                    Text(then),
                    Text(otherwise)
                )
            }
            NodeKind::Switch {
                value,
                arms,
                otherwise,
            } => {
                write!(f, "switch {} (", Text(value))?;
                show_list(arms.as_slice(), f)?;
                write!(f, ") else {}", Text(otherwise))
            }
            NodeKind::Host { call, next } => write!(f, "{} -> {}", Text(call), Text(next)),
            NodeKind::Goto { next } => write!(f, "goto {}", Text(next)),
            NodeKind::Stop => write!(f, "stop"),
            _ => show_transfer(self, f),
        }
    }
}

impl Textual for Graph {
    fn show<W: fmt::Write>(&self, f: &mut fmt::Formatter<W>) -> fmt::Result {
        let variables = self.variables;
        let temporaries = self.temporaries;
        write!(
            f,
            "from {}, {variables} variables, {temporaries} temporaries\n",
            Text(&self.first)
        )?;
        for (number, node) in self.nodes.iter().enumerate() {
            write!(f, "n{number}: {}\n", Text(&node.kind))?;
        }
        for (number, landing) in self.continuations.iter().enumerate() {
            write!(f, "k{number}: {}\n", Text(landing))?;
        }
        Ok(())
    }
}
