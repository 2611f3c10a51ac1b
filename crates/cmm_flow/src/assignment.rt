//! Assignments.
//!
//! One value goes to its place at once. Of several, all addresses and values are first put into temporaries, since
//! a value may be that of a variable that is assigned to before, and are then stored one by one from the left.

ghost use Rattle.std.specs.Prelude.{◌≡◌, ◌∷◌, [], IfOk};
ghost use Rattle.cmm_flow.specs.Code.{ValuesCode};
ghost use Rattle.cmm_flow.specs.Statements.{AddressesCode, AssignCode, SeveralCode, StoresCode};
ghost use Rattle.cmm_flow.specs.inside.Laying.{Lays};
ghost use Rattle.cmm_flow.specs.inside.Nodes.{nodes_of_address, nodes_of_addresses, nodes_of_assignment, nodes_of_several, nodes_of_stores, nodes_of_values};
ghost use Rattle.cmm_flow.specs.inside.Parts.{AddressCode, store_node, store_tokens};

use crate::builder::{Builder, as_number, following};
use crate::counts::access_tokens;
use crate::expression::{operand_of, temporary};
use cmm_graph::{Destination, NodeId, NodeKind, Operand, Rvalue};
use cmm_program::{Expression, Lvalue};
use std::alloc::AllocError;

/// The node that stores a value.
fn store_of(to: &Lvalue, address: Operand, value: Operand, next: NodeId) -> NodeKind
    ensures { result ≡ store_node to.now address value next }
{
    match to {
        Lvalue::Target(target) => NodeKind::Assign {
            to: Destination::Target(*target),
            value: Rvalue::Copy(value),
            next,
        },
        Lvalue::Memory { width, aligned, .. } => NodeKind::Store {
            width: *width,
            aligned: *aligned,
            address,
            value,
            next,
        },
    }
}

/// The tokens of that node.
fn store_tokens(to: &Lvalue) -> u32
    ensures { result ≡ store_tokens to.now }
{
    match to {
        Lvalue::Target(_) => 1,
        Lvalue::Memory { width, aligned, .. } => access_tokens(*width, *aligned),
    }
}

impl Builder {
    /// Lays the assignment of one value.
    fn assign_one(
        &mut self,
        to: &Lvalue,
        value: &Expression,
        next: NodeId,
    ) -> Result<NodeId, AllocError>
        ensures { IfOk result (λ n. Lays (nodes_of_assignment (to.now ∷ []) (value.now ∷ [])) (next ∷ []) self.old self.new (λ nodes. AssignCode nodes (to.now ∷ []) (value.now ∷ []) n next)) }
    {
        match to {
            Lvalue::Target(target) => self.value(value, 0, Destination::Target(*target), next),
            Lvalue::Memory { address, .. } => {
                let store = store_of(to, operand_of(address, 0), operand_of(value, 1), next);
                let node = self.push(store_tokens(to), store)?;
                self.two(address, value, node)
            }
        }
    }

    /// Lays the nodes by which a temporary takes an address, where there is one.
    fn address(&mut self, to: &Lvalue, base: u32, next: NodeId) -> Result<NodeId, AllocError>
        ensures { IfOk result (λ n. Lays (nodes_of_address base to.now) (next ∷ []) self.old self.new (λ nodes. AddressCode nodes to.now base n next)) }
    {
        match to {
            Lvalue::Target(_) => Ok(next),
            Lvalue::Memory { address, .. } => self.into_temporary(address, base, next),
        }
    }

    /// Lays the nodes by which temporaries take the addresses, each that of its place in the list.
    fn addresses(&mut self, to: &[Lvalue], base: u32, next: NodeId) -> Result<NodeId, AllocError>
        ensures { IfOk result (λ n. Lays (nodes_of_addresses base to.now) (next ∷ []) self.old self.new (λ nodes. AddressesCode nodes to.now base n next)) }
    {
        match to.split_first() {
            None => Ok(next),
            Some((first, rest)) => {
                let behind = self.addresses(rest, following(base)?, next)?;
                self.address(first, base, behind)
            }
        }
    }

    /// Lays the nodes by which temporaries take the values.
    fn values(
        &mut self,
        values: &[Expression],
        base: u32,
        next: NodeId,
    ) -> Result<NodeId, AllocError>
        ensures { IfOk result (λ n. Lays (nodes_of_values base values.now) (next ∷ []) self.old self.new (λ nodes. ValuesCode nodes values.now base n next)) }
    {
        match values.split_first() {
            None => Ok(next),
            Some((first, rest)) => {
                let behind = self.values(rest, following(base)?, next)?;
                self.into_temporary(first, base, behind)
            }
        }
    }

    /// Lays the stores of values that temporaries have, at addresses that temporaries have.
    fn stores(
        &mut self,
        to: &[Lvalue],
        values: &[Expression],
        address: u32,
        value: u32,
        next: NodeId,
    ) -> Result<NodeId, AllocError>
        ensures { IfOk result (λ n. Lays (nodes_of_stores to.now values.now address value) (next ∷ []) self.old self.new (λ nodes. StoresCode nodes to.now values.now address value n next)) }
    {
        let Some((first, rest)) = to.split_first() else {
            return Ok(next);
        };
        let Some((_, more)) = values.split_first() else {
            return Ok(next);
        };
        let behind = self.stores(rest, more, following(address)?, following(value)?, next)?;
        self.push(
            store_tokens(first),
            store_of(first, temporary(address), temporary(value), behind),
        )
    }

    /// Lays the assignment of several values.
    fn assign_several(
        &mut self,
        to: &[Lvalue],
        values: &[Expression],
        next: NodeId,
    ) -> Result<NodeId, AllocError>
        ensures { IfOk result (λ n. Lays (nodes_of_several to.now values.now) (next ∷ []) self.old self.new (λ nodes. SeveralCode nodes to.now values.now n next)) }
    {
        let count = as_number(to.len())?;
        let stores = self.stores(to, values, 0, count, next)?;
        let behind = self.values(values, count, stores)?;
        self.addresses(to, 0, behind)
    }

    /// Lays an assignment.
    pub fn assign(
        &mut self,
        to: &[Lvalue],
        values: &[Expression],
        next: NodeId,
    ) -> Result<NodeId, AllocError>
        ensures { IfOk result (λ n. Lays (nodes_of_assignment to.now values.now) (next ∷ []) self.old self.new (λ nodes. AssignCode nodes to.now values.now n next)) }
    {
        let Some((value, more)) = values.split_first() else {
            return self.push(1, NodeKind::Goto { next });
        };
        let Some((place, others)) = to.split_first() else {
            return self.assign_several(to, values, next);
        };
        if others.is_empty() && more.is_empty() {
            self.assign_one(place, value, next)
        } else {
            self.assign_several(to, values, next)
        }
    }
}
