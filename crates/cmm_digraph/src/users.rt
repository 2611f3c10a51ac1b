//! Who mentions a node.

ghost use Rattle.std.specs.Prelude.{◌≡◌, ◌+◌, ◌<◌, ℕ, true, length, IfOk, OnOk};
ghost use Rattle.cmm_digraph.specs.Graphs.{one_if, occurrences, are_below, is_graph, mentions};
ghost use Rattle.cmm_digraph.specs.inside.Listed.{AreAdded, nobody};
ghost use Rattle.cmm_digraph.specs.inside.Waiting.{AreUsers};

use cmm_items::Items;
use std::alloc::{AllocError, Global};

/// Adds a node to the users of each node that it mentions.
fn add_user(
    user: usize,
    mentioned: &[usize],
    users: &mut Vec<Items<usize>>,
) -> Result<(), AllocError>
    requires { are_below (length users.old.items) mentioned.now ≡ true }
    ensures { OnOk result (AreAdded user mentioned.now users.old.items users.new.items) }
{
    for node in mentioned {
        users[*node].push(user)?;
    }
    Ok(())
}

/// As many empty lists as there are nodes.
fn no_users(alloc: Global, graph: &[Items<usize>]) -> Result<Vec<Items<usize>>, AllocError>
    ensures { IfOk result (λ users. users.items ≡ nobody (length graph.now)) }
{
    let mut users = Vec::new(alloc);
    for _ in graph {
        users.push(Items::new(alloc))?;
    }
    Ok(users)
}

/// Who mentions each node, as often as it does.
pub(crate) fn users_of(
    alloc: Global,
    graph: &[Items<usize>],
) -> Result<Vec<Items<usize>>, AllocError>
    requires { is_graph graph.now ≡ true }
    ensures users { IfOk result (λ users. AreUsers graph.now users.items) }
    ensures size { IfOk result (λ users. length users.items ≡ length graph.now) }
{
    let mut users = no_users(alloc, graph)?;
    for (user, mentioned) in graph.iter().enumerate() {
        add_user(user, mentioned.as_slice(), &mut users)?;
    }
    Ok(users)
}
