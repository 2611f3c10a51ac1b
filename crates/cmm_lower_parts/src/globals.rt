//! The global registers of a program, and where it starts (C-- Language Specification 2.0, global registers, imports and exports).

ghost use Rattle.std.specs.Prelude.{◌≡◌, List, Some, map, codes, IfOk};
ghost use Rattle.cmm_static_semantics.specs.Declarations.{NamedUnit};
ghost use Rattle.cmm_static_semantics.specs.Linking.{published_as};
ghost use Rattle.cmm_linkage.specs.Registers.{AreWidths};
ghost use Rattle.cmm_elaboration.specs.Meaning as meaning;
ghost use Rattle.cmm_symbols.specs.Indexed.{indexed};
ghost use Rattle.cmm_lower_parts.specs.Registers.{global_by};

use cmm_items::Items;
use cmm_linkage::Linked;
use cmm_program::Global as Register;
use cmm_static_semantics::Sense;
use cmm_symbols::Index;
use cmm_words::{Constant, Name, Width};
use std::alloc::{AllocError, Global};

/// A register, with its width among those of registers by their names.
fn register_of(
    alloc: Global,
    name: &[u8],
    widths: &Index<'_, Option<Width>>,
) -> Result<Register, AllocError>
    ensures { IfOk result (λ register. register ≡ global_by (indexed widths.now) name.now) }
{
    let width = widths.get(name).unwrap_or(None).unwrap_or(Width::W64);
    let name = Name::from_slice(alloc, name)?;
    Ok(Register { name, width })
}

/// The registers of these names, each with the width of its first declaration.
pub fn globals_of(
    alloc: Global,
    names: &[&[u8]],
    widths: &Index<'_, Option<Width>>,
) -> Result<Items<Register>, AllocError>
    ensures each { IfOk result (λ globals. globals ≡ map (global_by (indexed widths.now)) (map (λ n. n.now) names.now)) }
    ensures of_units { IfOk result (λ globals. (us : List NamedUnit) → AreWidths widths.now us → globals ≡ map (meaning.global_of us) (map (λ n. n.now) names.now)) }
{
    let mut globals = Items::new(alloc);
    for name in names {
        let global = register_of(alloc, name, widths)?;
        globals.push(global)?;
    }
    Ok(globals)
}

/// The number of a procedure, by its address.
fn procedure_number(address: Constant) -> u32
    ensures { result ≡ meaning.procedure_number (Some address) }
{
    match address {
        Constant::Code { proc, .. } => proc,
        Constant::Number(_, _) => 0,
        Constant::Address { .. } => 0,
    }
}

/// The procedure that a program starts with: what is exported as `main`.
pub fn main_of<L: Linked>(linked: &L) -> u32
    ensures { result ≡ meaning.procedure_number (published_as (codes "main") (L.program linked.now).exports) }
{
    match linked.imported(b"main") {
        Sense::Value(address) => procedure_number(address),
        // It is no name of the host, so that what is imported under it is an address.
        Sense::Variable(_, _) => 0,
        Sense::Register(_, _) => 0,
        Sense::Broken(_) => 0,
        Sense::Stackdata(_) => 0,
        Sense::Continuation(_) => 0,
        Sense::Host(_) => 0,
        Sense::Typedef(_) => 0,
        Sense::CodeLabel => 0,
    }
}
