// A mesh in two flat slices, three f32 a vertex and three vertex numbers a face: its size, a face read and written whole (`faces`), a vertex's place
// (`vertices`), and the box of the vertices, which is part of the answer (`vertex_box`). What a well-formed mesh is stands in specs/FlatMesh. Beside the
// Rust's `TriangleMesh`, whose lists hold a place, or three numbers, an entry; it has no box.
#![tactic(auto)]

mod faces;
mod vertex_box;
mod vertices;

pub use faces::{read_face, write_face};
pub use vertex_box::bounds;
pub use vertices::{triple_at, vertex_at};

// How many vertices and how many faces there are.
#[derive(Clone, Copy)]
pub struct MeshSize {
    pub vertices: usize,
    pub faces: usize,
}

// The low and the high corner of the box of the vertices.
#[derive(Clone, Copy)]
pub struct VertexBox {
    pub low: [f32; 3],
    pub high: [f32; 3],
}
