//! The operators by their names and by their signs.

ghost use Rattle.std.specs.Prelude.{◌≡◌, map};
ghost use Rattle.cmm_words.specs.Words.{is_division};
ghost use Rattle.cmm_static_semantics.specs.Operators as operators;

use cmm_ast::{Infix, Prefix};
use cmm_static_semantics::Operator;
use cmm_words::{Cmp, Name, Op1, Op2, Width};

/// Each operator with the name that stands after the percent sign.
const OPERATORS: [(&str, Operator); 44] = [
    ("add", Operator::Binary(Op2::Add)),
    ("sub", Operator::Binary(Op2::Sub)),
    ("mul", Operator::Binary(Op2::Mul)),
    ("neg", Operator::Unary(Op1::Neg)),
    ("com", Operator::Unary(Op1::Com)),
    ("and", Operator::Binary(Op2::And)),
    ("or", Operator::Binary(Op2::Or)),
    ("xor", Operator::Binary(Op2::Xor)),
    ("shl", Operator::Binary(Op2::Shl)),
    ("shrl", Operator::Binary(Op2::Shrl)),
    ("shra", Operator::Binary(Op2::Shra)),
    ("rotl", Operator::Binary(Op2::Rotl)),
    ("rotr", Operator::Binary(Op2::Rotr)),
    ("divu", Operator::Binary(Op2::Divu)),
    ("modu", Operator::Binary(Op2::Modu)),
    ("div", Operator::Binary(Op2::Div)),
    ("mod", Operator::Binary(Op2::Mod)),
    ("quot", Operator::Binary(Op2::Quot)),
    ("rem", Operator::Binary(Op2::Rem)),
    ("eq", Operator::Compare(Cmp::Eq)),
    ("ne", Operator::Compare(Cmp::Ne)),
    ("ltu", Operator::Compare(Cmp::Ltu)),
    ("leu", Operator::Compare(Cmp::Leu)),
    ("gtu", Operator::Compare(Cmp::Gtu)),
    ("geu", Operator::Compare(Cmp::Geu)),
    ("lt", Operator::Compare(Cmp::Lt)),
    ("le", Operator::Compare(Cmp::Le)),
    ("gt", Operator::Compare(Cmp::Gt)),
    ("ge", Operator::Compare(Cmp::Ge)),
    ("not", Operator::Not),
    ("conjoin", Operator::Conjoin),
    ("disjoin", Operator::Disjoin),
    ("sx8", Operator::SignExtend(Width::W8)),
    ("sx16", Operator::SignExtend(Width::W16)),
    ("sx32", Operator::SignExtend(Width::W32)),
    ("sx64", Operator::SignExtend(Width::W64)),
    ("zx8", Operator::ZeroExtend(Width::W8)),
    ("zx16", Operator::ZeroExtend(Width::W16)),
    ("zx32", Operator::ZeroExtend(Width::W32)),
    ("zx64", Operator::ZeroExtend(Width::W64)),
    ("lobits8", Operator::LowBits(Width::W8)),
    ("lobits16", Operator::LowBits(Width::W16)),
    ("lobits32", Operator::LowBits(Width::W32)),
    ("lobits64", Operator::LowBits(Width::W64)),
];

/// The operator of a name in a table.
fn operator_in(table: &[(&str, Operator)], name: &[u8]) -> Option<Operator>
    ensures { result ≡ operators.operator_in (map (λ r. operators.row r.0.now r.1) table.now) name.now }
{
    for (spelling, operator) in table {
        if name == spelling.as_bytes() {
            return Some(*operator);
        }
    }
    None
}

/// The operator that is written by this name, if there is one.
pub fn operator_named(name: &Name) -> Option<Operator>
    ensures { result ≡ operators.operator_named name.now }
{
    operator_in(&OPERATORS, name.as_bytes())
}

/// The operator of this name, if it may be checked.
pub fn checked_named(name: &Name) -> Option<Operator>
    ensures { result ≡ operators.checked_named name.now }
{
    match operator_named(name) {
        Some(Operator::Binary(operator)) => {
            if is_division(operator) {
                Some(Operator::Binary(operator))
            } else {
                None
            }
        }
        _ => None,
    }
}

/// What an operator between two operands does.
pub fn infix_operator(operator: Infix) -> Operator
    ensures { result ≡ operators.infix_operator operator }
{
    match operator {
        Infix::Eq => Operator::Compare(Cmp::Eq),
        Infix::Ne => Operator::Compare(Cmp::Ne),
        Infix::Lt => Operator::Compare(Cmp::Ltu),
        Infix::Le => Operator::Compare(Cmp::Leu),
        Infix::Gt => Operator::Compare(Cmp::Gtu),
        Infix::Ge => Operator::Compare(Cmp::Geu),
        Infix::Or => Operator::Binary(Op2::Or),
        Infix::Xor => Operator::Binary(Op2::Xor),
        Infix::And => Operator::Binary(Op2::And),
        Infix::Shl => Operator::Binary(Op2::Shl),
        Infix::Shr => Operator::Binary(Op2::Shrl),
        Infix::Add => Operator::Binary(Op2::Add),
        Infix::Sub => Operator::Binary(Op2::Sub),
        Infix::Mul => Operator::Binary(Op2::Mul),
        Infix::Div => Operator::Binary(Op2::Divu),
        Infix::Mod => Operator::Binary(Op2::Modu),
    }
}

/// What an operator before its operand does.
pub fn prefix_operator(operator: Prefix) -> Operator
    ensures { result ≡ operators.prefix_operator operator }
{
    match operator {
        Prefix::Negate => Operator::Unary(Op1::Neg),
        Prefix::Complement => Operator::Unary(Op1::Com),
    }
}

/// Whether an operator has no value where its second operand is 0.
fn is_division(operator: Op2) -> bool
    ensures { result ≡ is_division operator }
{
    matches!(
        operator,
        Op2::Divu | Op2::Modu | Op2::Div | Op2::Mod | Op2::Quot | Op2::Rem
    )
}
