//! A search of a graph, depth first, that finds the nodes on cycles.
//!
//! A node is open from when it is found until its component is whole: the nodes that lead to it and that it leads to. The open nodes are in
//! the order in which they were found, and each leads to all after it. Where the components of them begin, as far as is known, is kept beside
//! them: each open node leads to the one at which its component begins. A node is left once all that it mentions has been searched. It leads
//! back to itself if it then mentions an open node, since that leads to it. If its component begins there, it is whole.

ghost use Rattle.std.specs.Prelude.{◌≡◌, ◌≤◌, ◌++◌, ◌∷◌, true, map, length, IfOk, OnOk};
ghost use Rattle.cmm_digraph.specs.Graphs.{is_graph};
ghost use Rattle.cmm_digraph.specs.inside.Searched.{IsSearch, IsSearchAt, work};

use crate::components::{close, cut, join, lowest_open};
use cmm_items::Items;
use std::alloc::{AllocError, Global};

/// How far a search has come with a node.
#[derive(Clone, Copy)]
pub(crate) enum State {
    /// It has not been found.
    New,
    /// It is open, at a place among the open nodes.
    Open(usize),
    /// Its component is whole.
    Closed,
}

/// What a search has to do.
#[derive(Clone, Copy)]
pub(crate) enum Step {
    /// To look at a node.
    Enter(usize),
    /// To leave the open node at a place.
    Leave(usize),
}

/// A search.
#[derive(Drop)]
pub(crate) struct Search {
    /// How far it has come with each node.
    pub(crate) states: Vec<State>,
    /// The open nodes, in the order in which they were found.
    pub(crate) open: Vec<usize>,
    /// The places at which components of them begin.
    pub(crate) starts: Vec<usize>,
    /// What is to be done, the last first.
    pub(crate) steps: Vec<Step>,
    /// Which of the nodes that have been left are on cycles.
    pub(crate) cyclic: Vec<bool>,
}

/// Adds steps that look at nodes.
fn enter_all(nodes: &[usize], steps: &mut Vec<Step>) -> Result<(), AllocError>
    ensures { OnOk result (steps.new.items ≡ steps.old.items ++ map Step.Enter nodes.now) }
{
    for node in nodes {
        steps.push(Step::Enter(*node))?;
    }
    Ok(())
}

impl Search {
    /// A search of a graph, of which no node is found yet.
    pub(crate) fn new(alloc: Global, graph: &[Items<usize>]) -> Result<Search, AllocError>
        ensures { IfOk result (IsSearch graph.now) }
    {
        let mut states = Vec::new(alloc);
        let mut steps = Vec::new(alloc);
        let mut cyclic = Vec::new(alloc);
        for node in 0..graph.len() {
            states.push(State::New)?;
            steps.push(Step::Enter(node))?;
            cyclic.push(false)?;
        }
        Ok(Search {
            states,
            open: Vec::new(alloc),
            starts: Vec::new(alloc),
            steps,
            cyclic,
        })
    }

    /// Looks at a node: opens it, if it is new.
    pub(crate) fn enter(&mut self, graph: &[Items<usize>], node: usize) -> Result<(), AllocError>
        requires graph { is_graph graph.now ≡ true }
        requires search { IsSearchAt graph.now (Step.Enter node) self.old }
        ensures search { OnOk result (IsSearch graph.now self.new) }
        ensures work { OnOk result (work graph.now self.new ≤ work graph.now self.old) }
    {
        match self.states[node] {
            State::New => {
                let place = self.open.len();
                self.states[node] = State::Open(place);
                self.open.push(node)?;
                self.starts.push(place)?;
                self.steps.push(Step::Leave(place))?;
                enter_all(graph[node].as_slice(), &mut self.steps)
            }
            State::Open(_) => Ok(()),
            State::Closed => Ok(()),
        }
    }

    /// Leaves the open node at a place.
    pub(crate) fn leave(&mut self, graph: &[Items<usize>], place: usize)
        requires graph { is_graph graph.now ≡ true }
        requires search { IsSearchAt graph.now (Step.Leave place) self.old }
        ensures search { IsSearch graph.now self.new }
        ensures work { work graph.now self.new ≤ work graph.now self.old }
    {
        let node = self.open[place];
        let lowest = lowest_open(graph[node].as_slice(), self.states.as_slice());
        self.cyclic[node] = lowest.is_some();
        join(lowest, &mut self.starts);
        if cut(place, &mut self.starts) {
            close(&self.open[place..], &mut self.states);
            self.open.truncate(place);
        }
    }
}
