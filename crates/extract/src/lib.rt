// Document 01, "Extraction", beside `extract_shared` of marching_cubes.rs, for any Lattice. In two passes, so that a caller can refuse before anything is
// written: `number_edges`, of the crate `numbering`, gives each crossed edge its vertex number in a lent table and answers V and F, `write_mesh` writes the
// vertices and the faces.
#![tactic(auto)]

mod write;

pub use numbering::number_edges;
pub use write::write_mesh;
