// The first pass: every edge that a face uses gets its vertex number, at first use, in a lent table, and V and F are counted.
ghost use Rattle.std.specs.Prelude.{◌≡◌, ◌<◌, length};
ghost use Rattle.numbering.specs.Words.{mark1, Markable, Numbered, Numberable, Counted};
ghost use Rattle.numbering.specs.Laws.Marking.{numbered_none, numbered_append, markable_next};
ghost use Rattle.std.proofs.Common.{refl, ◌∙◌};

use cells::{Isosurface, Visit};
use grid::{Edge, Lattice};
use meshes::MeshSize;

// An edge gets the next number unless it has one: the table holds one more than the vertex, 0 where there is none. The answer is how many have one.
fn mark(table: &mut [u32], edge: Edge, count: usize) -> usize
    requires { (edge.0 < length table.old) × (count < 4294967295) }
    ensures { (table.new, result) ≡ mark1 (table.old, count) edge.0 }
{
    let at = edge.place();
    if table[at] == 0 {
        table[at] = (count + 1) as u32;
        return count + 1;
    }
    count
}

// The table, and how many vertices and faces it has numbers of so far.
#[derive(Drop)]
struct Numbering<'a> {
    table: &'a mut [u32],
    size: MeshSize,
}

impl Visit for Numbering<'_> {
    ghost Ready = { λ s fs. Markable s.table.now s.size fs };

    ghost Visited = { λ s t fs. (t.table.ghost_name ≡ s.table.ghost_name) × Numbered s.table.now t.table.now s.size t.size fs };

    // The three edges of a face, in order.
    fn visit(&mut self, a: Edge, b: Edge, c: Edge) {
        let count = mark(self.table, a, self.size.vertices);
        let count = mark(self.table, b, count);
        self.size.vertices = mark(self.table, c, count);
        self.size.faces += 1;
    }

    ghost visited_none = { λ s. (refl, numbered_none) };

    ghost visited_append = { λ s t u fs gs v w. (w.0 ∙ v.0, numbered_append v.1 w.1) };

    ghost ready_next = { λ s t fs gs hs r v. markable_next fs gs hs r v.1 };
}

// "A vertex is numbered at first use": the table of 3N elements, which may hold anything, is cleared and filled; the answer is V and F.
pub fn number_edges(values: &[f32], lattice: Lattice, iso: f32, table: &mut [u32]) -> MeshSize
    requires { Numberable values.now table.old lattice }
    ensures { Counted values.now table.new lattice iso result }
{
    lists::clear(table);
    let surface = Isosurface {
        values,
        lattice,
        iso,
    };
    let size = MeshSize {
        vertices: 0,
        faces: 0,
    };
    let mut numbering = Numbering { table, size };
    surface.visit_faces(&mut numbering);
    numbering.size
}
