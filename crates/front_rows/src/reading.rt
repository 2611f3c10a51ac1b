//! The tree of a unit, and its constants with names resolved.

ghost use Rattle.cmm_typing.specs.Fitting.{AreWords};
ghost use Rattle.cmm_typing.specs.Meanings.{senses_of};

use cmm_ast::{DeclForm, Expr, TopLevel, Unit};
use cmm_items::Items;
use cmm_lexer::lex;
use cmm_parser::parse;
use cmm_static_semantics::Typed;
use cmm_typing::{Meaning, Scope, resolve};
use cmm_words::{Constant, Name, Width};
use std::alloc::{AllocError, Global};
use std::io;

/// What names mean.
const MEANINGS: [(&str, Meaning); 12] = [
    ("byte", Meaning::Variable(0, Width::W8)),
    ("half", Meaning::Variable(1, Width::W16)),
    ("word", Meaning::Variable(2, Width::W32)),
    ("long", Meaning::Variable(3, Width::W64)),
    ("global", Meaning::Register(4, Width::W64)),
    ("limit", Meaning::Value(Constant::Number(200, Width::W8))),
    ("proc", Meaning::Value(Constant::Code { proc: 5, plus: 0 })),
    (
        "table",
        Meaning::Value(Constant::Address { label: 6, plus: 0 }),
    ),
    ("room", Meaning::Stack(7)),
    ("handler", Meaning::Continuation(8)),
    ("short", Meaning::Typedef(Width::W16)),
    ("loop", Meaning::CodeLabel),
];

/// What is printed of a unit.
#[derive(Clone, Copy)]
pub(crate) enum Read {
    /// Its tree.
    Tree,
    /// What each of its constants is resolved to.
    Constants,
}

/// The names of `MEANINGS`.
pub(crate) fn scope(alloc: Global) -> Result<Scope, AllocError> {
    let mut names = Items::new(alloc);
    for (name, meaning) in &MEANINGS {
        names.push((Name::from_slice(alloc, name.as_bytes())?, *meaning))?;
    }
    Ok(Scope { names })
}

/// Prints what is read of a unit, or why a text is none.
pub(crate) fn print_unit(
    rt: &(impl AllocGlobal + Print),
    scope: &Scope,
    text: &str,
    read: Read,
) -> io::Result<()>
    requires { AreWords (senses_of scope.now.names) }
{
    let tokens = match lex(rt.alloc(), text.as_bytes()) {
        Ok(tokens) if tokens.list.len() < 0x1_0000_0000 => tokens,
        Ok(_) => return println!(rt; "too many tokens"),
        Err(fault) => return println!(rt; "{fault}"),
    };
    match parse(rt.alloc(), &tokens) {
        Ok(unit) => match read {
            Read::Tree => println!(rt; "{:?}", unit.parts),
            Read::Constants => print_constants(rt, scope, &unit),
        },
        Err(fault) => println!(rt; "{fault}"),
    }
}

fn print_constants(rt: &(impl AllocGlobal + Print), scope: &Scope, unit: &Unit) -> io::Result<()>
    requires { AreWords (senses_of scope.now.names) }
{
    for part in unit.parts.as_slice() {
        let TopLevel::Decl(decl) = part else {
            continue;
        };
        let DeclForm::Const { value, .. } = &decl.form else {
            continue;
        };
        print_resolved(rt, scope, value)?;
    }
    Ok(())
}

/// Prints the width of an expression, or that it is a condition, and what it is resolved to.
fn print_resolved(rt: &(impl AllocGlobal + Print), scope: &Scope, e: &Expr) -> io::Result<()>
    requires { AreWords (senses_of scope.now.names) }
{
    match resolve(rt.alloc(), scope, e)? {
        Ok(Typed::Bits(bits)) => { println!(rt; "{:?}: {:?}", bits.width, bits.value) }
        Ok(Typed::Test(condition)) => println!(rt; "bool: {condition:?}"),
        Err(Some(spot)) => {
            println!(rt;
                "rule {} is broken at token {}",
                spot.rule.number(),
                spot.token
            )
        }
        Err(None) => println!(rt; "broken elsewhere"),
    }
}
