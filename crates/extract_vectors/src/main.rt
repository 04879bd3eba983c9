// Replays a list of grids through the two passes of `extract`, and prints what differs and a count. Each grid of `stdin` has its node counts, origin, step,
// level and values, then its mesh: V and F, three patterns a vertex, three numbers a face. The list was written by a Rust program that runs the Rust's own
// `extract_shared`, with each NaN rewritten as 01 stores it; NaN, infinities and values equal to the level are among the values, and some grids have unequal
// sides. The last two grids were added by 01's rule: P12, and 3×3×3 with only the centre below. The slices hold rubbish before each call.
#![tactic(auto)]

mod words;

ghost use Rattle.std.specs.Prelude.{◌≡◌, ◌*◌, ◌<◌, ◌≤◌, length, IfSome, OnErr};
ghost use Rattle.grid.specs.Grid.{Counts};
ghost use Rattle.cells.specs.Extraction.{count_x, count_y, count_z};
ghost use Rattle.numbering.specs.Words.{Numberable, Counted};
ghost use Rattle.extract.specs.Words.{Writable};

use grid::Lattice;
use meshes::MeshSize;
use replay::Words;
use std::io;
use words::{Header, read_header, read_values, skip_word};

// ---- what differs

// Whether a number differs from the list's.
fn differs(
    rt: &impl Print,
    grid: u64,
    name: &str,
    i: usize,
    want: u64,
    got: u64,
) -> io::Result<bool> {
    if got != want {
        println!(rt; "grid {grid}: {name} {i} should be {want:08x}, is {got:08x}")?;
    }
    Ok(got != want)
}

// A grid that the program's slices do not hold counts as one that differs.
fn no_room(rt: &impl Print, grid: u64) -> io::Result<bool> {
    println!(rt; "no room for grid {grid}")?;
    Ok(true)
}

// ---- the mesh

fn compare_vertices(
    rt: &impl Print,
    words: &mut Words<'_>,
    vertices: &[f32],
    grid: u64,
) -> io::Result<bool>
    ensures { length words.new ≤ length words.old }
{
    let mut differ = false;
    for (i, x) in vertices.iter().enumerate() {
        let got = arith::pattern32(*x) as u64;
        differ |= differs(rt, grid, "coordinate", i, words.hex(), got)?;
    }
    Ok(differ)
}

fn compare_faces(
    rt: &impl Print,
    words: &mut Words<'_>,
    faces: &[u32],
    grid: u64,
) -> io::Result<bool>
    ensures { length words.new ≤ length words.old }
{
    let mut differ = false;
    for (i, corner) in faces.iter().enumerate() {
        let got = *corner as u64;
        differ |= differs(rt, grid, "face corner", i, words.decimal(), got)?;
    }
    Ok(differ)
}

// The second pass, and its mesh beside the list's.
fn compare_mesh(
    rt: &impl Print,
    words: &mut Words<'_>,
    header: Header,
    values: &[f32],
    table: &[u32],
    vertices: &mut [f32],
    faces: &mut [u32],
    grid: u64,
) -> io::Result<bool>
    requires { Writable values.now table.now header.lattice header.iso vertices.old faces.old }
    ensures words { length words.new ≤ length words.old }
    ensures failed { OnErr result ((length vertices.new ≡ length vertices.old) × (length faces.new ≡ length faces.old)) }
{
    extract::write_mesh(values, header.lattice, header.iso, table, vertices, faces);
    let in_vertices = compare_vertices(rt, words, vertices, grid)?;
    let in_faces = compare_faces(rt, words, faces, grid)?;
    Ok(in_vertices || in_faces)
}

// Parts of exactly 3V and 3F elements for the vertices and the faces.
fn replay_writing(
    rt: &impl Print,
    words: &mut Words<'_>,
    header: Header,
    values: &[f32],
    table: &[u32],
    totals: MeshSize,
    grid: u64,
) -> io::Result<bool>
    requires { Numberable values.now table.now header.lattice
        × Counted values.now table.now header.lattice header.iso totals
        × (totals.vertices ≤ 256)
        × (totals.faces ≤ 256) }
    ensures { length words.new ≤ length words.old }
{
    let v = 3 * totals.vertices;
    let f = 3 * totals.faces;
    let mut vertices = [0.5f32; 768];
    let mut faces = [7u32; 768];
    compare_mesh(
        rt,
        words,
        header,
        values,
        table,
        &mut vertices[..v],
        &mut faces[..f],
        grid,
    )
}

// Whether V or F differs from the list's.
fn miscounted(
    rt: &impl Print,
    words: &mut Words<'_>,
    totals: MeshSize,
    grid: u64,
) -> io::Result<bool>
    ensures { length words.new ≤ length words.old }
{
    skip_word(words);
    let vertices = words.decimal();
    let faces = words.decimal();
    let in_vertices = differs(rt, grid, "V", 0, vertices, totals.vertices as u64)?;
    let in_faces = differs(rt, grid, "F", 0, faces, totals.faces as u64)?;
    Ok(in_vertices || in_faces)
}

// The first pass, over the values that the list gives.
fn replay_numbering(
    rt: &impl Print,
    words: &mut Words<'_>,
    header: Header,
    values: &mut [f32],
    table: &mut [u32],
    grid: u64,
) -> io::Result<bool>
    requires { Numberable values.old table.old header.lattice }
    ensures words { length words.new ≤ length words.old }
    ensures failed { OnErr result ((length values.new ≡ length values.old) × (length table.new ≡ length table.old)) }
{
    read_values(words, values);
    let totals = extract::number_edges(values, header.lattice, header.iso, table);
    if miscounted(rt, words, totals, grid)? {
        return Ok(true);
    }
    if 256 < totals.vertices || 256 < totals.faces {
        return no_room(rt, grid);
    }
    replay_writing(rt, words, header, values, table, totals, grid)
}

// ---- the grid

// How many nodes there are, where extraction takes them and the program's slices hold them.
fn nodes_here(lattice: Lattice) -> Option<usize>
    ensures { IfSome result (λ nodes. Counts lattice.counts × (nodes ≡ count_x lattice * count_y lattice * count_z lattice) × (nodes ≤ 128)) }
{
    let [nx, ny, nz] = lattice.counts;
    if nx < 2 || ny < 2 || nz < 2 {
        return None;
    }
    if 128 < nx || 128 < ny || 128 < nz {
        return None;
    }
    let nodes = nx * ny * nz;
    if 128 < nodes { None } else { Some(nodes) }
}

// Parts of exactly N and 3N elements for the values and the edge table.
fn replay_parts(
    rt: &impl Print,
    words: &mut Words<'_>,
    header: Header,
    nodes: usize,
    grid: u64,
) -> io::Result<bool>
    requires { Counts header.lattice.counts
        × (nodes ≡ count_x header.lattice * count_y header.lattice * count_z header.lattice)
        × (nodes ≤ 128) }
    ensures { length words.new ≤ length words.old }
{
    let edges = 3 * nodes;
    let mut values = [0.5f32; 128];
    let mut table = [7u32; 384];
    replay_numbering(
        rt,
        words,
        header,
        &mut values[..nodes],
        &mut table[..edges],
        grid,
    )
}

fn replay_grid(rt: &impl Print, words: &mut Words<'_>, grid: u64) -> io::Result<bool>
    ensures { length words.new ≤ length words.old }
{
    let header = read_header(words);
    match nodes_here(header.lattice) {
        Some(nodes) => replay_parts(rt, words, header, nodes, grid),
        None => no_room(rt, grid),
    }
}

// ---- the list

// A grid begins at the word `grid`; other words, which a mesh that differs leaves over, are passed by.
fn replay_all(rt: &impl Print, text: &[u8]) -> io::Result<()> {
    let mut words = Words::new(text);
    let mut grids = 0u64;
    let mut differ = 0u64;
    while let Some(word) = words.next() {
        if word == b"grid".as_slice() {
            differ += u64::from(replay_grid(rt, &mut words, grids)?);
            grids += 1;
        }
    }
    println!(rt; "{grids} grids, {differ} differ")
}

fn main(rt: HostRuntime) -> io::Result<()> {
    let mut text = [0u8; 131072];
    let n = input::read_full(&rt, &mut text)?;
    replay_all(&rt, &text[..n])
}
