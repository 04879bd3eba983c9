// Node and edge numbers, made and undone. The Rust's `index`, `coords` and the closure `edge_id`, whose numbers are all `usize`.
ghost use Rattle.std.specs.Prelude.{◌≡◌, ◌+◌, ◌^◌, ◌<◌};
ghost use Rattle.closed.specs.Grid.{edge};
ghost use Rattle.grid.specs.Grid.{node_at, coords_of, node_of, axis_of};

use crate::{Edge, Node, Vertex};

// (i·ny+j)·nz+k, for a position below some counts whose last two are ny and nz.
pub fn node_at(ny: usize, nz: usize, at: [usize; 3]) -> Node
    requires { (0 < nz) × (node_at ny nz at < 16777216) }
    ensures { result.0 ≡ node_at ny nz at }
{
    Node((at[0] * ny + at[1]) * nz + at[2])
}

// And back: k is what is left over of rows of nz nodes, j of planes of ny rows.
pub fn coords_of(ny: usize, nz: usize, node: Node) -> [usize; 3]
    requires { (0 < ny) × (0 < nz) }
    ensures { result ≡ coords_of ny nz node.0 }
{
    let row = node.0 / nz;
    [row / ny, row % ny, node.0 % nz]
}

// Makers and readers have names, where `From` has none: `Edge::at(place)` stands beside `Edge::of(node, axis)`, and `place` says what the number is for.
impl Node {
    // The node whose value stands at this place of a slice.
    pub fn of(place: usize) -> Node
        ensures { result.0 ≡ place }
    {
        Node(place)
    }

    // Where its value stands in a slice.
    pub fn place(self) -> usize
        ensures { result ≡ self.0 }
    {
        self.0
    }

    // The node whose number is greater by so much: by k for the node k further along a row, by a row for the same node of the next.
    pub fn after(self, by: usize) -> Node
        requires { self.0 + by < 2 ^ 64 }
        ensures { result.0 ≡ self.0 + by }
    {
        Node(self.0 + by)
    }
}

impl Edge {
    // The edge from a node towards + axis: 3·node+axis.
    pub fn of(node: Node, axis: usize) -> Edge
        requires { (node.0 < 16777216) × (axis < 3) }
        ensures { result.0 ≡ edge node.0 axis }
    {
        Edge(3 * node.0 + axis)
    }

    // The node that it goes from.
    pub fn node(self) -> Node
        ensures { result.0 ≡ node_of self.0 }
    {
        Node(self.0 / 3)
    }

    // The axis that it goes along.
    pub fn axis(self) -> usize
        ensures { result ≡ axis_of self.0 }
    {
        self.0 % 3
    }

    // The edge whose entry stands at this place of a table over edges.
    pub fn at(place: usize) -> Edge
        ensures { result.0 ≡ place }
    {
        Edge(place)
    }

    // Where its entry stands in a table over edges.
    pub fn place(self) -> usize
        ensures { result ≡ self.0 }
    {
        self.0
    }
}

impl Vertex {
    // The vertex of a number that was read from a slice of faces.
    pub fn of(number: u32) -> Vertex
        ensures { result.0 ≡ number }
    {
        Vertex(number)
    }

    // Its number, to be written into a slice of faces.
    pub fn number(self) -> u32
        ensures { result ≡ self.0 }
    {
        self.0
    }
}
