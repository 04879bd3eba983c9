// The second pass: the vertices, each at the first use of its edge, and the faces, in the order of the cells and their rows.
ghost use Rattle.std.specs.Prelude.{◌≡◌, ◌*◌, ◌<◌, ◌≤◌, length};
ghost use Rattle.grid.specs.Grid.{Counts};
ghost use Rattle.cells.specs.Words.{Inner};
ghost use Rattle.extract.specs.Words.{point_of, place1, vertex_in, Placeable, Written, Writable, Mesh};
ghost use Rattle.extract.specs.Laws.Placing.{written_none, written_append, written_at, placeable_next};
ghost use Rattle.std.proofs.Common.{refl, ◌∙◌};

use cells::{Isosurface, Visit};
use grid::{Edge, Lattice, Vertex};
use meshes::{MeshSize, write_face};

// At the first use of its edge a vertex's number is how many are written: its coordinates come next. The answer is how many are written then.
fn place(
    vertices: &mut [f32],
    surface: &Isosurface<'_>,
    table: &[u32],
    edge: Edge,
    count: usize,
) -> usize
    requires { Counts surface.now.lattice.counts
        × Inner surface.now.values.now surface.now.lattice edge.0
        × (edge.0 < length table.now)
        × (3 * (place1 table.now (point_of surface.now) (vertices.old, count) edge.0).1 ≤ length vertices.old) }
    ensures { (vertices.new, result) ≡ place1 table.now (point_of surface.now) (vertices.old, count) edge.0 }
{
    if table[edge.place()] as usize != count + 1 {
        return count;
    }
    let p = surface.point(edge);
    vertices[3 * count] = p[0];
    vertices[3 * count + 1] = p[1];
    vertices[3 * count + 2] = p[2];
    count + 1
}

// The vertex of an edge: one less than the table's entry.
fn vertex_of(table: &[u32], edge: Edge) -> Vertex
    requires { edge.0 < length table.now }
    ensures { result.0 ≡ vertex_in table.now edge.0 }
{
    Vertex::of(table[edge.place()].saturating_sub(1))
}

// The surface with its edges' numbers, the slices that are written, and how many vertices and faces they hold so far.
#[derive(Drop)]
struct Writing<'a> {
    surface: Isosurface<'a>,
    table: &'a [u32],
    vertices: &'a mut [f32],
    faces: &'a mut [u32],
    size: MeshSize,
}

impl Visit for Writing<'_> {
    ghost Ready = { λ s fs. Placeable s.surface s.table.now s.vertices.now s.faces.now s.size fs };

    ghost Visited = { λ s t fs.
        (t.surface ≡ s.surface)
        × (t.table.now ≡ s.table.now)
        × (t.vertices.ghost_name ≡ s.vertices.ghost_name)
        × (t.faces.ghost_name ≡ s.faces.ghost_name)
        × Written s.table.now (point_of s.surface) s.vertices.now t.vertices.now s.faces.now t.faces.now s.size t.size fs };

    // A face: the vertices that it uses first, then its three numbers.
    fn visit(&mut self, a: Edge, b: Edge, c: Edge) {
        let done = self.size.faces;
        let one = place(
            self.vertices,
            &self.surface,
            self.table,
            a,
            self.size.vertices,
        );
        let two = place(self.vertices, &self.surface, self.table, b, one);
        let three = place(self.vertices, &self.surface, self.table, c, two);
        let x = vertex_of(self.table, a);
        let y = vertex_of(self.table, b);
        let z = vertex_of(self.table, c);
        write_face(self.faces, done, [x.number(), y.number(), z.number()]);
        self.size = MeshSize {
            vertices: three,
            faces: done + 1,
        };
    }

    ghost visited_none = { λ s. (refl, refl, refl, refl, written_none) };

    ghost visited_append = { λ s t u fs gs v w. (w.0 ∙ v.0, w.1 ∙ v.1, w.2 ∙ v.2, w.3 ∙ v.3, written_append v.4 (written_at v.0 v.1 w.4)) };

    ghost ready_next = { λ s t fs gs hs r v. placeable_next fs gs hs v.0 v.1 r v.4 };
}

// The mesh, into slices of exactly 3V and 3F elements, which may hold anything; the table is the one that `number_edges` filled.
pub fn write_mesh(
    values: &[f32],
    lattice: Lattice,
    iso: f32,
    table: &[u32],
    vertices: &mut [f32],
    faces: &mut [u32],
)
    requires { Writable values.now table.now lattice iso vertices.old faces.old }
    ensures { Mesh values.now lattice iso vertices.new faces.new }
{
    let surface = Isosurface {
        values,
        lattice,
        iso,
    };
    let size = MeshSize {
        vertices: 0,
        faces: 0,
    };
    let mut writing = Writing {
        surface,
        table,
        vertices,
        faces,
        size,
    };
    surface.visit_faces(&mut writing);
}
