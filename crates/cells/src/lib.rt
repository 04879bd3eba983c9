// One cell of a Lattice, the vertex on an edge, and the walk over all faces, of document 01's "Extraction", beside `extract_shared` of marching_cubes.rs.
// The definitions of the whole section are in specs/; the two passes of extraction, in the crates `numbering` and `extract`, each visit the faces.
#![tactic(auto)]

mod cell;
mod vertex;
mod walk;

pub use cell::{below, cell_edge, edge_offsets};
pub use walk::Visit;

// Where the values at the nodes of a lattice pass the level: what is extracted.
#[derive(Clone, Copy)]
pub struct Isosurface<'a> {
    pub values: &'a [f32],
    pub lattice: grid::Lattice,
    pub iso: f32,
}
