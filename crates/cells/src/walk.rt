// The walk over the faces of a surface: planes, lines, cells, and the row of each cell's case, in this order. Both passes of extraction make it, and differ in
// what they do at a face.
ghost use Rattle.std.specs.Prelude.{◌≡◌, List, [], ◌∷◌, ◌++◌, ◌+◌, ◌*◌, ◌<◌, length};
ghost use Rattle.closed.specs.Faces.{Face, face};
ghost use Rattle.closed.specs.Rows.{flat_table};
ghost use Rattle.cells.specs.Extraction.{count_x, count_y, count_z, edge_faces};
ghost use Rattle.cells.specs.Words.{row_faces, edge_offsets, EdgesIn};
ghost use Rattle.cells.specs.Surface.{cell_of, line_of, plane_of, block_of, case_of, CellInside, LineInside, Sampled};

use crate::Isosurface;
use crate::cell::{cell_edge, edge_offsets};
use grid::{Edge, Node};

// What is done at each face, which is named by its three edges. `Ready` says that some faces may be visited, `Visited` which state their visit leads to.
pub trait Visit {
    ghost Ready: { Self → List Face → Type 0 };

    ghost Visited: { Self → Self → List Face → Type 0 };

    fn visit(&mut self, a: Edge, b: Edge, c: Edge)
        requires { Ready self.old (face a.0 b.0 c.0 ∷ []) }
        ensures { Visited self.old self.new (face a.0 b.0 c.0 ∷ []) };

    // the laws: no face changes nothing, visits join, and where all may be visited, once the first ones are, so may the next
    ghost visited_none: { (s : Self) → Visited s s [] };

    ghost visited_append: { (s t u : Self) (fs gs : List Face) → Visited s t fs → Visited t u gs → Visited s u (fs ++ gs) };

    ghost ready_next: { (s t : Self) (fs gs hs : List Face) → Ready s (fs ++ gs ++ hs) → Visited s t fs → Ready t gs };
}

// The surface, and what is made once and read at each of its cells: how far the edges of a cell lie from its first, and the table of triangles. Both are
// lent: held by value, the table's 4 KiB would be moved into each walk, and on the smallest grids a pass would cost a third more.
#[derive(Drop)]
struct Walk<'a> {
    surface: Isosurface<'a>,
    offsets: &'a [usize; 12],
    triangles: &'a [i8; 4096],
    ghost sampled: { Sampled surface },
    ghost its_offsets: { offsets.now ≡ edge_offsets (count_y surface.lattice) (count_z surface.lattice) },
    ghost its_table: { triangles.now ≡ flat_table },
}

impl Walk<'_> {
    // The faces of a case over the edges from `first` on, in the order of its row.
    fn visit_row<V: Visit>(&self, visitor: &mut V, first: Edge, case: usize)
        requires { EdgesIn self.now.offsets.now first.0 (3 * length self.now.surface.values.now)
            × (case < 256)
            × V.Ready visitor.old (row_faces self.now.offsets.now first.0 case) }
        ensures { V.Visited visitor.old visitor.new (row_faces self.now.offsets.now first.0 case) }
    {
        for k in 0..cubes::row_faces(self.triangles, case) {
            let [a, b, c] = cubes::row_face(self.triangles, case, k);
            visitor.visit(
                cell_edge(first, a, self.offsets),
                cell_edge(first, b, self.offsets),
                cell_edge(first, c, self.offsets),
            );
        }
    }

    // A cell. Cases 0 and 255 have no face, and cost no row.
    fn visit_cell<V: Visit>(&self, visitor: &mut V, at: Node, case: usize)
        requires { CellInside self.now.surface at.0
            × (case ≡ case_of self.now.surface at.0)
            × V.Ready visitor.old (cell_of self.now.surface at.0) }
        ensures { V.Visited visitor.old visitor.new (cell_of self.now.surface at.0) }
    {
        if case == 0 || case == 255 {
            return;
        }
        self.visit_row(visitor, Edge::of(at, 0), case);
    }

    // The cells of a line from a node on, along the last axis, one after the other.
    fn visit_cells<V: Visit>(&self, visitor: &mut V, from: Node)
        requires { LineInside self.now.surface from.0 × V.Ready visitor.old (line_of self.now.surface from.0) }
        ensures { V.Visited visitor.old visitor.new (line_of self.now.surface from.0) }
    {
        let mut near = self.surface.side_of(from);
        for k in 0..self.surface.lattice.counts[2] - 1 {
            let far = self.surface.side_of(from.after(k + 1));
            self.visit_cell(visitor, from.after(k), near + 16 * far);
            near = far;
        }
    }

    // The same. A plain line has no face, and is passed over.
    fn visit_line<V: Visit>(&self, visitor: &mut V, from: Node)
        requires { LineInside self.now.surface from.0 × V.Ready visitor.old (line_of self.now.surface from.0) }
        ensures { V.Visited visitor.old visitor.new (line_of self.now.surface from.0) }
    {
        if !self.surface.is_plain(from) {
            self.visit_cells(visitor, from);
        }
    }

    // The lines of plane i, along the middle axis.
    fn visit_plane<V: Visit>(&self, visitor: &mut V, i: usize)
        requires { (i + 1 < count_x self.now.surface.lattice) × V.Ready visitor.old (plane_of self.now.surface i) }
        ensures { V.Visited visitor.old visitor.new (plane_of self.now.surface i) }
    {
        let lattice = self.surface.lattice;
        for j in 0..lattice.counts[1] - 1 {
            self.visit_line(visitor, lattice.line_start(i, j));
        }
    }

    // The planes, along the first axis.
    fn visit_planes<V: Visit>(&self, visitor: &mut V)
        requires { V.Ready visitor.old (block_of self.now.surface) }
        ensures { V.Visited visitor.old visitor.new (block_of self.now.surface) }
    {
        for i in 0..self.surface.lattice.counts[0] - 1 {
            self.visit_plane(visitor, i);
        }
    }
}

impl Isosurface<'_> {
    // Every face of the surface, in order.
    pub fn visit_faces<V: Visit>(&self, visitor: &mut V)
        requires { Sampled self.now × V.Ready visitor.old (edge_faces self.now.values.now self.now.lattice self.now.iso) }
        ensures { V.Visited visitor.old visitor.new (edge_faces self.now.values.now self.now.lattice self.now.iso) }
    {
        let offsets = edge_offsets(self.lattice);
        let triangles = cubes::triangle_table();
        let walk = Walk {
            surface: *self,
            offsets: &offsets,
            triangles: &triangles,
        };
        walk.visit_planes(visitor);
    }
}
