//! The numbers by which a graph names things. Each has a type of its own, so that none is taken for another. All count
//! from 0.

/// A node of a graph.
#[derive(Clone, Copy)]
pub struct NodeId {
    pub number: u32,
}

/// A variable of the procedure. Its formals come first.
#[derive(Clone, Copy, Debug)]
pub struct Variable {
    pub number: u32,
}

/// A temporary, which holds the value of an operator inside a statement. The program cannot see it.
#[derive(Clone, Copy, Debug)]
pub struct Temporary {
    pub number: u32,
}

/// A global register of the program.
#[derive(Clone, Copy)]
pub struct Register {
    pub number: u32,
}

/// A stackdata label of the procedure.
#[derive(Clone, Copy)]
pub struct StackLabel {
    pub number: u32,
}

/// A continuation of the procedure.
#[derive(Clone, Copy)]
pub struct ContinuationId {
    pub number: u32,
}

/// A call site of the procedure.
#[derive(Clone, Copy)]
pub struct SiteId {
    pub number: u32,
}
