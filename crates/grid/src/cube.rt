// The Grid: a cube of n nodes per side.
ghost use Rattle.std.specs.Prelude.{◌≡◌, ◌*◌, ◌<◌, ◌≤◌, get_or};
ghost use Rattle.grid.specs.Grid.{Sides, Counts, Position, grid_of, node_at, coords_of, row_start};
ghost use Rattle.grid.specs.Grid.{at_end, on_boundary, boundary_row, world_of, lattice_of, all_nodes};

use crate::numbering::{coords_of, node_at};
use crate::{Grid, Lattice, Node};

// Whether a count is the first or the last of its axis.
fn at_end(n: usize, i: usize) -> bool
    requires { 0 < n }
    ensures { result ≡ at_end n i }
{
    i == 0 || i == n - 1
}

impl Grid {
    // "Depth up to 4 is one level, started from zeros": the coarsest level above it.
    pub const COARSEST_DEPTH: u32 = 4;

    // n = 2^depth nodes per side over a cube of this size, so n-1 steps.
    pub fn new(origin: [f64; 3], size: f64, depth: u32) -> Grid
        requires { (1 ≤ depth) × (depth ≤ 8) }
        ensures { (result ≡ grid_of origin size depth) × Sides result.nodes }
    {
        let n = 1usize << depth;
        Grid {
            nodes: n,
            origin,
            step: size / (n - 1) as f64,
        }
    }

    // How many nodes there are.
    pub fn len(self) -> usize
        requires { Sides self.nodes }
        ensures { result ≡ all_nodes self }
    {
        let n = self.nodes;
        n * n * n
    }

    // The node at a position; the Rust's `index`.
    pub fn node(self, at: [usize; 3]) -> Node
        requires sides { Sides self.nodes }
        requires position { Position self.nodes self.nodes self.nodes at }
        ensures { result.0 ≡ node_at self.nodes self.nodes at }
    {
        node_at(self.nodes, self.nodes, at)
    }

    // The position of a node.
    pub fn coords(self, node: Node) -> [usize; 3]
        requires { Sides self.nodes }
        ensures { result ≡ coords_of self.nodes self.nodes node.0 }
    {
        coords_of(self.nodes, self.nodes, node)
    }

    // The first node of row i·n+j, whose nodes stand one after the other along the last axis.
    pub fn row_start(self, row: usize) -> Node
        requires sides { Sides self.nodes }
        requires row_bound { row < self.nodes * self.nodes }
        ensures { result.0 ≡ row_start self.nodes row }
    {
        Node::of(row * self.nodes)
    }

    // Whether a position lies on one of the cube's six sides.
    pub fn is_boundary(self, at: [usize; 3]) -> bool
        requires { Sides self.nodes }
        ensures { result ≡ on_boundary self.nodes (get_or at 0 0) (get_or at 1 0) (get_or at 2 0) }
    {
        let n = self.nodes;
        at_end(n, at[0]) || at_end(n, at[1]) || at_end(n, at[2])
    }

    // Whether all nodes of row i·n+j are on the boundary.
    pub fn boundary_row(self, row: usize) -> bool
        requires { Sides self.nodes }
        ensures { result ≡ boundary_row self.nodes row }
    {
        let n = self.nodes;
        at_end(n, row / n) || at_end(n, row % n)
    }

    // The place of a position: origin + count·step along each axis.
    pub fn world(self, at: [usize; 3]) -> [f64; 3]
        requires sides { Sides self.nodes }
        requires position { Position self.nodes self.nodes self.nodes at }
        ensures { result ≡ world_of self at }
    {
        [
            self.origin[0] + at[0] as f64 * self.step,
            self.origin[1] + at[1] as f64 * self.step,
            self.origin[2] + at[2] as f64 * self.step,
        ]
    }

    // The cube as a Lattice: the one function that makes it.
    pub fn lattice(self) -> Lattice
        requires { Sides self.nodes }
        ensures { (result ≡ lattice_of self) × Counts result.counts }
    {
        let n = self.nodes;
        let h = self.step;
        let origin = self.origin;
        Lattice {
            counts: [n, n, n],
            origin,
            step: [h, h, h],
        }
    }
}
