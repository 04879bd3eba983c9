// Document 01, "Grid", beside `Grid` of the Rust's poisson.rs: its records here, its functions in the modules. `numbering` is the only place that makes a
// number of a position and a position of a number, and the only one that knows 3·node+axis; `cube` has the Grid, `block` the Lattice, `trilinear` cells
// and samples.
#![tactic(auto)]

mod block;
mod cube;
mod numbering;
mod trilinear;

// ---- three kinds of number: a swapped one would still lie in range

// A node's number: its place in a slice of one value a node.
#[derive(Clone, Copy)]
pub struct Node(pub usize);

// An edge's number: its place in a slice of three values a node.
#[derive(Clone, Copy)]
pub struct Edge(pub usize);

// A vertex's number, as a face holds it.
#[derive(Clone, Copy)]
pub struct Vertex(pub u32);

// ---- where the nodes stand

// The cube: so many nodes per side, a step apart from the origin on. Every stage takes it by value.
#[derive(Clone, Copy)]
pub struct Grid {
    pub nodes: usize,
    pub origin: [f64; 3],
    pub step: f64,
}

// The same with a count and a step per axis, which is all that extraction asks.
#[derive(Clone, Copy)]
pub struct Lattice {
    pub counts: [usize; 3],
    pub origin: [f64; 3],
    pub step: [f64; 3],
}

// ---- trilinear

// A cell's first count along one axis, and how far past it a place lies.
#[derive(Clone, Copy)]
pub struct Along {
    pub cell: usize,
    pub frac: f64,
}

// The same along all three.
#[derive(Clone, Copy)]
pub struct Cell {
    pub base: [usize; 3],
    pub frac: [f64; 3],
}
