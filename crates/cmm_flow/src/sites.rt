//! The exits of call sites.

ghost use Rattle.std.specs.Prelude.{◌≡◌, ◌∷◌, [], IfOk, map, slice_get};
ghost use Rattle.cmm_program.specs.Todo.{site_results};
ghost use Rattle.cmm_flow.specs.Statements.{ExitsCode, NormalExit, first_result as first_of};
ghost use Rattle.cmm_flow.specs.inside.Laying.{Lays};
ghost use Rattle.cmm_flow.specs.inside.Nodes.{nodes_of_exits};
ghost use Rattle.cmm_flow.specs.inside.Passing.{ExitsLead};

use crate::builder::{Builder, as_number, following};
use cmm_graph::{ContinuationId, Destination, Exits, NodeId, NodeKind, Temporary};
use cmm_items::{Boxed, Items};
use cmm_program::{Proc, Site, Target};
use std::alloc::{AllocError, Global};

/// Continuations by their numbers.
pub fn continuations(alloc: Global, numbers: &[u32]) -> Result<Items<ContinuationId>, AllocError>
    ensures { IfOk result (λ ks. ks ≡ map (λ k. record { number = k }) numbers.now) }
{
    let mut continuations = Items::new(alloc);
    for number in numbers {
        continuations.push(ContinuationId { number: *number })?;
    }
    Ok(continuations)
}

/// What takes the value of a division: the first result.
fn first(results: &[Target]) -> Destination
    ensures { result ≡ first_of results.now }
{
    match results.split_first() {
        Some((target, _)) => Destination::Target(*target),
        None => Destination::Temporary(Temporary { number: 0 }),
    }
}

/// The same at a site of a procedure.
pub fn first_result(q: &Proc, site: u32) -> Destination
    ensures { result ≡ first_of (site_results q.now site) }
{
    match q.sites.get(site as usize) {
        Some(site) => first(site.results.as_slice()),
        None => first(&[]),
    }
}

impl Builder {
    /// Lays the CopyIn of a site's normal exit, unless it never returns.
    fn normal_exit(&mut self, site: &Site, next: NodeId) -> Result<Option<NodeId>, AllocError>
        ensures { IfOk result (λ normal. Lays (nodes_of_exits (Some site.now)) (next ∷ []) self.old self.new (λ nodes. NormalExit nodes site.now normal next)) }
    {
        if site.never {
            return Ok(None);
        }
        let tokens = following(as_number(site.results.len())?)?;
        let to = Items::from_slice(self.alloc, site.results.as_slice())?;
        let node = self.push(tokens, NodeKind::CopyIn { to, next })?;
        Ok(Some(node))
    }

    /// The exits of a site. Lays the CopyIn of its normal exit.
    fn exits(&mut self, site: &Site, next: NodeId) -> Result<Exits, AllocError>
        ensures { IfOk result (λ exits. Lays (nodes_of_exits (Some site.now)) (next ∷ []) self.old self.new (λ nodes. ExitsCode nodes (Some site.now) exits next)) }
    {
        let returns = continuations(self.alloc, site.returns.as_slice())?;
        let unwinds = continuations(self.alloc, site.unwinds.as_slice())?;
        let cuts = continuations(self.alloc, site.cuts.as_slice())?;
        let normal = self.normal_exit(site, next)?;
        Ok(Exits {
            normal,
            returns,
            unwinds,
            cuts,
        })
    }

    /// The exits of a site by its number; none where the procedure lacks it.
    fn exits_if_there(&mut self, q: &Proc, site: u32, next: NodeId) -> Result<Exits, AllocError>
        ensures { IfOk result (λ exits. Lays (nodes_of_exits (slice_get q.now.sites site)) (next ∷ []) self.old self.new (λ nodes. ExitsLead nodes (slice_get q.now.sites site) exits next)) }
    {
        match q.sites.get(site as usize) {
            Some(site) => self.exits(site, next),
            None => Ok(Exits {
                normal: None,
                returns: Items::new(self.alloc),
                unwinds: Items::new(self.alloc),
                cuts: Items::new(self.alloc),
            }),
        }
    }

    /// The exits of a site by its number, as a node holds them.
    pub fn exits_at(
        &mut self,
        q: &Proc,
        site: u32,
        next: NodeId,
    ) -> Result<Boxed<Exits>, AllocError>
        ensures { IfOk result (λ exits. Lays (nodes_of_exits (slice_get q.now.sites site)) (next ∷ []) self.old self.new (λ nodes. ExitsLead nodes (slice_get q.now.sites site) exits next)) }
    {
        let exits = self.exits_if_there(q, site, next)?;
        Boxed::new(self.alloc, exits)
    }
}
