// Both passes of `extract` over a cube, for C and Rust to call, so that they can be tested and timed on any processor. Each is that of its crate, and its
// contract too. The caller keeps what a `requires` asks: lengths that fit, and the table of the first pass. Nothing checks it at the boundary.
#![tactic(auto)]

ghost use Rattle.std.specs.Prelude.{[], ◌∷◌, get_or};
ghost use Rattle.grid.specs.Grid.{Sides, lattice_of};
ghost use Rattle.numbering.specs.Words.{Numberable, Counted};
ghost use Rattle.extract.specs.Words.{Writable, Mesh};

// The grid has `nodes` per side from (a, b, c) on, `step` apart. V and F go into `counts`.
#[unsafe(no_mangle)]
pub extern "C" fn hoardmagpie_number_edges(
    values: &[f32],
    nodes: usize,
    a: f64,
    b: f64,
    c: f64,
    step: f64,
    iso: f32,
    table: &mut [u32],
    counts: &mut [usize; 2],
)
    requires sides { Sides nodes }
    requires numberable { Numberable values.now table.old (lattice_of (record { nodes = nodes; origin = a ∷ b ∷ c ∷ []; step = step })) }
    ensures { Counted values.now table.new (lattice_of (record { nodes = nodes; origin = a ∷ b ∷ c ∷ []; step = step })) iso
        (record { vertices = get_or counts.new 0 0; faces = get_or counts.new 1 0 }) }
{
    let g = grid::Grid {
        nodes,
        origin: [a, b, c],
        step,
    };
    let totals = extract::number_edges(values, g.lattice(), iso, table);
    *counts = [totals.vertices, totals.faces];
}

// The same grid; slices of exactly 3V and 3F.
#[unsafe(no_mangle)]
pub extern "C" fn hoardmagpie_write_mesh(
    values: &[f32],
    nodes: usize,
    a: f64,
    b: f64,
    c: f64,
    step: f64,
    iso: f32,
    table: &[u32],
    vertices: &mut [f32],
    faces: &mut [u32],
)
    requires sides { Sides nodes }
    requires writable { Writable values.now table.now (lattice_of (record { nodes = nodes; origin = a ∷ b ∷ c ∷ []; step = step })) iso vertices.old
        faces.old }
    ensures { Mesh values.now (lattice_of (record { nodes = nodes; origin = a ∷ b ∷ c ∷ []; step = step })) iso vertices.new
        faces.new }
{
    let g = grid::Grid {
        nodes,
        origin: [a, b, c],
        step,
    };
    extract::write_mesh(values, g.lattice(), iso, table, vertices, faces);
}
