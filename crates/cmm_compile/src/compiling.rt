//! The passes, one after another.

ghost use Rattle.std.specs.Prelude.{◌<◌, ◌^◌, length, IfOk, IfErr};
ghost use Rattle.cmm_program.specs.InRange.{IsInRange};
ghost use Rattle.std.specs.List.{AllZip};
ghost use Rattle.cmm_front.specs.Programs.{IsProgramOf};
ghost use Rattle.cmm_hoisted.specs.Flow.{AreFlowsWithin, IsHoistedFlow};
ghost use Rattle.cmm_image.specs.Images.{IsImage};
ghost use Rattle.cmm_compile.specs.Agreement.{Agree, AgreesWith};
ghost use Rattle.cmm_front.specs.Refusing.{IsFaultOf};
ghost use Rattle.cmm_compile.specs.Refusing.{IsRefused};

use crate::fault::BuildFault;
use crate::laws::passes_fit;
use cmm_allocate::place_program;
use cmm_data::lay_out;
use cmm_emit::lay_program;
use cmm_flow::flows;
use cmm_fold::fold_all;
use cmm_folded::laws::flows_fold;
use cmm_front::program_of;
use cmm_graph::Graph;
use cmm_hoist::hoist_all;
use cmm_hoisted::laws::{flows_hoist, folded_flows_can_be_hoisted};
use cmm_image::Image;
use cmm_items::Items;
use cmm_link::link;
use cmm_live::liveness_of_all;
use cmm_program::Program;
use std::alloc::{AllocError, Global};

/// An image keeps every rule of its format.
fn know_rules(image: &Image)
    ensures { IsImage image.now }
{
    image.parts();
}

/// The graphs of a program in range: the flows of its procedures, with their constants folded, and those of loops hoisted. An error is want of memory.
fn graphs_of(alloc: Global, program: &Program) -> Result<Items<Graph>, AllocError>
    requires { IsInRange program.now }
    ensures within { IfOk result (AreFlowsWithin program.now) }
    ensures flows { IfOk result (AllZip IsHoistedFlow program.now.procs) }
{
    flows_fold();
    folded_flows_can_be_hoisted();
    flows_hoist();
    let unfolded = flows(alloc, program)?;
    hoist_all(alloc, program, fold_all(unfolded))
}

/// A program with its image.
#[derive(Drop)]
pub struct Compiled {
    pub program: Program,
    pub image: Image,
}

/// The program of units, by the bytes of each, and its image, pass by pass: each takes what those before it made. The image agrees with the program: it does what the C-- machine does on it, and nothing else, unless the machine
/// commits an unchecked error first. Units that break a rule are refused for the first, by phase, then by unit, place and number.
pub fn compile_program(alloc: Global, units: &[Items<u8>]) -> Result<Compiled, BuildFault>
    requires { length units.now < 2 ^ 32 }
    ensures ok { IfOk result (λ c. IsProgramOf units.now c.program × AgreesWith c.program c.image) }
    ensures range { IfOk result (λ c. IsInRange c.program) }
    ensures err { IfErr result (IsRefused (IsFaultOf units.now)) }
    ensures named { 0 < length units.now → IfErr result (IsRefused (λ f. f.unit < length units.now)) }
{
    passes_fit();
    let program = program_of(alloc, units)?;
    let data = lay_out(alloc, &program)?;
    let graphs = graphs_of(alloc, &program)?;
    let live = liveness_of_all(alloc, graphs.as_slice())?;
    let places = place_program(alloc, &program, graphs.as_slice(), live)?;
    let code = lay_program(alloc, &program, graphs.as_slice(), places.as_slice())?;
    let image = link(alloc, &program, places.as_slice(), data, code)?;
    know_rules(&image);
    Ok(Compiled { program, image })
}

/// The image of units, as `compile_program` makes it.
pub fn compile(alloc: Global, units: &[Items<u8>]) -> Result<Image, BuildFault>
    requires { length units.now < 2 ^ 32 }
    ensures ok { IfOk result (Agree units.now) }
    ensures err { IfErr result (IsRefused (IsFaultOf units.now)) }
    ensures named { 0 < length units.now → IfErr result (IsRefused (λ f. f.unit < length units.now)) }
{
    let Compiled { image, .. } = compile_program(alloc, units)?;
    Ok(image)
}
