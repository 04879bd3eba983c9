// The Lattice: a block of nodes with a count and a step per axis.
ghost use Rattle.std.specs.Prelude.{◌≡◌, ◌<◌, get_or};
ghost use Rattle.grid.specs.Grid.{Counts, Position, node_at, coords_of, line_start};

use crate::numbering::{coords_of, node_at};
use crate::{Lattice, Node};

impl Lattice {
    // The node at a position.
    pub fn node(self, at: [usize; 3]) -> Node
        requires counts { Counts self.counts }
        requires position { Position (get_or self.counts 0 0) (get_or self.counts 1 0) (get_or self.counts 2 0) at }
        ensures { result.0 ≡ node_at (get_or self.counts 1 0) (get_or self.counts 2 0) at }
    {
        node_at(self.counts[1], self.counts[2], at)
    }

    // The first node of line j of plane i, whose nodes stand one after the other along the last axis.
    pub fn line_start(self, i: usize, j: usize) -> Node
        requires counts { Counts self.counts }
        requires i_bound { (i < get_or self.counts 0 0) × (j < get_or self.counts 1 0) }
        ensures { result.0 ≡ line_start (get_or self.counts 1 0) (get_or self.counts 2 0) i j }
    {
        self.node([i, j, 0])
    }

    // The position of a node.
    pub fn coords(self, node: Node) -> [usize; 3]
        requires { Counts self.counts }
        ensures { result ≡ coords_of (get_or self.counts 1 0) (get_or self.counts 2 0) node.0 }
    {
        coords_of(self.counts[1], self.counts[2], node)
    }
}
