// The cube of document 01, "Extraction", beside `extract_shared` and TRIANGLE_TABLE of marching_cubes.rs: its corners and edges, and the
// 256×16 signed table of triangles, whose rule is proved in the crate `closed`.
#![tactic(auto)]

mod cube;
mod rows;
mod table;

pub use cube::{axis_of, corner, low_of};
pub use rows::{row_face, row_faces};
pub use table::triangle_table;
