// Document 01, "What crosses the counter": "unused result elements and all scratch are zero on return". The seven scratch slices over nodes as one value, and
// the one ending of every call, refused or accepted: a refusal has no mesh, so all of its result elements are unused. The Rust drops its vectors.
#![tactic(auto)]

ghost use Rattle.std.specs.Prelude.{◌≡◌};
ghost use Rattle.ending.specs.Slices.{scratch_of, slices_of, SameGrids, grid_lengths};
ghost use Rattle.ending.specs.Ending.{Cleared, Tidied};

// The seven scratch slices of a value a node. They are lent together and go back together.
#[derive(Drop)]
pub struct Grids<'a> {
    pub s0: &'a mut [f32],
    pub s1: &'a mut [f32],
    pub s2: &'a mut [f32],
    pub s3: &'a mut [f32],
    pub s4: &'a mut [f32],
    pub s5: &'a mut [f32],
    pub s6: &'a mut [f32],
}

impl Grids<'_> {
    // How long each is.
    pub fn lengths(&self) -> [usize; 7]
        ensures { result ≡ grid_lengths self.now }
    {
        [
            self.s0.len(),
            self.s1.len(),
            self.s2.len(),
            self.s3.len(),
            self.s4.len(),
            self.s5.len(),
            self.s6.len(),
        ]
    }
}

// Clears all scratch, whole slices, also where they are longer than stated.
pub fn clear_scratch(grids: &mut Grids, edges: &mut [u32], distances: &mut [f32])
    ensures same { SameGrids grids.old grids.new }
    ensures cleared { Cleared (scratch_of grids.old edges.old distances.old) (scratch_of grids.new edges.new distances.new) }
{
    lists::clear(grids.s0);
    lists::clear(grids.s1);
    lists::clear(grids.s2);
    lists::clear(grids.s3);
    lists::clear(grids.s4);
    lists::clear(grids.s5);
    lists::clear(grids.s6);
    lists::clear(edges);
    lists::clear(distances);
}

// Clears the vertex slice from element `v` on, the face slice from `w` on, and all scratch.
pub fn tidy(
    v: usize,
    w: usize,
    vertices: &mut [f32],
    faces: &mut [u32],
    grids: &mut Grids,
    edges: &mut [u32],
    distances: &mut [f32],
)
    ensures same { SameGrids grids.old grids.new }
    ensures tidied { Tidied v w (slices_of vertices.old faces.old grids.old edges.old distances.old)
        (slices_of vertices.new faces.new grids.new edges.new distances.new) }
{
    lists::clear_from(vertices, v);
    lists::clear_from(faces, w);
    clear_scratch(grids, edges, distances);
}
