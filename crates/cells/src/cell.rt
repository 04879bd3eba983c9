// A cell: its case, by the values at its corners, and its edges. A cell is named by the node at its corner 0, so that the loops only add.
ghost use Rattle.std.specs.Prelude.{◌≡◌, ◌+◌, ◌*◌, ◌<◌, ◌≤◌, length, get_or};
ghost use Rattle.closed.specs.Lists.{bit};
ghost use Rattle.grid.specs.Grid.{Counts};
ghost use Rattle.cells.specs.Extraction.{is_below, count_y, count_z};
ghost use Rattle.cells.specs.Surface.{SideInside, LineInside};
ghost use Rattle.cells.specs.Words.{side_at, below_count, plain_line, edge_offset, edge_offsets};

use crate::Isosurface;
use grid::{Edge, Lattice, Node};

// "Bit c of the case is set when corner c's value is less than iso. Neither equality nor NaN sets it."
pub fn below(value: f32, iso: f32) -> bool
    ensures { result ≡ is_below value iso }
{
    value < iso
}

fn bit_of(value: f32, iso: f32) -> usize
    ensures { (result ≡ bit (is_below value iso)) × (result ≤ 1) }
{
    usize::from(below(value, iso))
}

impl Isosurface<'_> {
    // The bits of the side of cells at a node: corners 0, 1, 2, 3 of the cell there, in the order of the corner list, and corners 4, 5, 6, 7 of the cell
    // before. A case is a near side and sixteen times the far one, so a line of cells reads each side once.
    pub fn side_of(&self, node: Node) -> usize
        requires { SideInside self.now node.0 }
        ensures { result ≡ side_at self.now.values.now (count_y self.now.lattice) (count_z self.now.lattice) self.now.iso node.0 }
    {
        let [_, ny, nz] = self.lattice.counts;
        let n = node.place();
        let plane = n + ny * nz;
        bit_of(self.values[n], self.iso)
            + 2 * bit_of(self.values[plane], self.iso)
            + 4 * bit_of(self.values[plane + nz], self.iso)
            + 8 * bit_of(self.values[n + nz], self.iso)
    }

    // How many nodes of the row from a node on are below. The count is a u32, which makes the loop vector code.
    fn count_below(&self, first: Node) -> usize
        requires { (first.0 + count_z self.now.lattice ≤ length self.now.values.now) × (length self.now.values.now ≤ 16777216) }
        ensures { result ≡ below_count self.now.values.now (count_z self.now.lattice) self.now.iso first.0 }
    {
        let mut count = 0u32;
        for k in 0..self.lattice.counts[2] {
            count += bit_of(self.values[first.0 + k], self.iso) as u32;
        }
        count as usize
    }

    // Whether the four rows of nodes round the line of cells from a node on are all below or all not. Then its cases are 0 or 255, and it has no face.
    pub fn is_plain(&self, from: Node) -> bool
        requires { LineInside self.now from.0 × (length self.now.values.now ≤ 16777216) }
        ensures { result ≡ plain_line self.now.values.now (count_y self.now.lattice) (count_z self.now.lattice) self.now.iso from.0 }
    {
        let [_, ny, nz] = self.lattice.counts;
        let plane = from.after(ny * nz);
        let count = self.count_below(from)
            + self.count_below(plane)
            + self.count_below(plane.after(nz))
            + self.count_below(from.after(nz));
        count == 0 || count == 4 * nz
    }
}

// Edge e of the cell at node 0.
fn first_edge(lattice: Lattice, e: usize) -> Edge
    requires { Counts lattice.counts × (e < 12) }
    ensures { result.0 ≡ edge_offset (count_y lattice) (count_z lattice) e }
{
    let at = cubes::corner(cubes::low_of(e));
    let node = lattice.node(at);
    Edge::of(node, cubes::axis_of(e))
}

// How much greater the number of each of the twelve edges is than 3·n in the cell at node n, made once and lent down.
pub fn edge_offsets(lattice: Lattice) -> [usize; 12]
    requires { Counts lattice.counts }
    ensures { result ≡ edge_offsets (count_y lattice) (count_z lattice) }
{
    std::array::from_fn(|e| first_edge(lattice, e).place())
}

// Edge e of the cell whose edges are numbered from `first` on.
pub fn cell_edge(first: Edge, e: usize, offsets: &[usize; 12]) -> Edge
    requires { (e < 12) × (first.0 + get_or offsets.now e 0 < 50331648) }
    ensures { result.0 ≡ first.0 + get_or offsets.now e 0 }
{
    Edge::at(first.place() + offsets[e])
}
