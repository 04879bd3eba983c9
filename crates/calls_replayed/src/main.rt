// Replays recorded calls and prints each answer in the words of oracle/cases, so that a reader can hold the two side by side. Each call of `stdin` has
// its name, its settings, how many of the field's values are to be shown, how long each lent slice is, and its points; `stdout` was written by the
// oracle. Each call is made twice: for the mesh in slices of those lengths, then for the field alone in slices that are long enough. All slices are lent
// full of rubbish; `left` and `field-left` count, slice by slice, what is not zero past the results and in all scratch.
#![tactic(auto)]

mod tell;
mod words;

ghost use Rattle.std.specs.Prelude.{◌≤◌, length};

use answers::Answer;
use ending::Grids;
use replay::Words;
use settings::Settings;
use std::io;
use tell::{digest, left, tell_answer, tell_count, tell_digest, tell_field_answer, tell_values};
use words::{read_floats, read_lengths, read_settings};

// ---- the mesh of a call

// Three numbers each; a count that no slice could hold is taken for none.
fn triples(count: usize) -> usize {
    if 0x1_0000_0000 < count {
        return 0;
    }
    3 * count
}

// What is not zero in the scratch, slice by slice: the end of a line.
fn tell_scratch(
    rt: &impl Print,
    grids: &Grids,
    edges: &[u32],
    distances: &[f32],
) -> io::Result<()> {
    tell_count(rt, left(grids.s0, 0))?;
    tell_count(rt, left(grids.s1, 0))?;
    tell_count(rt, left(grids.s2, 0))?;
    tell_count(rt, left(grids.s3, 0))?;
    tell_count(rt, left(grids.s4, 0))?;
    tell_count(rt, left(grids.s5, 0))?;
    tell_count(rt, left(grids.s6, 0))?;
    tell_count(rt, left(edges, 0))?;
    tell_count(rt, left(distances, 0))?;
    println!(rt;)
}

// The answer, the mesh as two digests, and what is not zero past V and F and in all scratch.
fn report(
    rt: &impl Print,
    answer: Answer,
    vertices: &[f32],
    faces: &[u32],
    grids: &Grids,
    edges: &[u32],
    distances: &[f32],
) -> io::Result<()> {
    let v = triples(answer.vertices);
    let f = triples(answer.faces);
    tell_answer(rt, answer)?;
    tell_digest(rt, "hash-vertices", digest(vertices, v))?;
    tell_digest(rt, "hash-faces", digest(faces, f))?;
    print!(rt; "left")?;
    tell_count(rt, left(vertices, v))?;
    tell_count(rt, left(faces, f))?;
    tell_scratch(rt, grids, edges, distances)
}

// A call in slices of the recorded lengths.
fn ask(
    rt: &impl Print,
    points: &[f32],
    settings: Settings,
    vertices: &mut [f32],
    faces: &mut [u32],
    grids: &mut Grids,
    edges: &mut [u32],
    distances: &mut [f32],
) -> io::Result<()> {
    let answer = poisson::poisson_reconstruction(
        points, settings, vertices, faces, grids, edges, distances,
    );
    report(rt, answer, vertices, faces, grids, edges, distances)
}

// Room for grids of depth 5, full of rubbish, and no more of it than the list asks for.
fn lend(
    rt: &impl Print,
    points: &[f32],
    settings: Settings,
    lengths: [usize; 11],
) -> io::Result<()> {
    let mut vertices = [0.5f32; 32768];
    let mut faces = [7u32; 65536];
    let mut s0 = [0.5f32; 32768];
    let mut s1 = [0.5f32; 32768];
    let mut s2 = [0.5f32; 32768];
    let mut s3 = [0.5f32; 32768];
    let mut s4 = [0.5f32; 32768];
    let mut s5 = [0.5f32; 32768];
    let mut s6 = [0.5f32; 32768];
    let mut edges = [7u32; 98304];
    let mut distances = [0.5f32; 512];
    let mut grids = Grids {
        s0: &mut s0[..lengths[0].min(32768)],
        s1: &mut s1[..lengths[1].min(32768)],
        s2: &mut s2[..lengths[2].min(32768)],
        s3: &mut s3[..lengths[3].min(32768)],
        s4: &mut s4[..lengths[4].min(32768)],
        s5: &mut s5[..lengths[5].min(32768)],
        s6: &mut s6[..lengths[6].min(32768)],
    };
    ask(
        rt,
        points,
        settings,
        &mut vertices[..lengths[9].min(32768)],
        &mut faces[..lengths[10].min(65536)],
        &mut grids,
        &mut edges[..lengths[7].min(98304)],
        &mut distances[..lengths[8].min(512)],
    )
}

// ---- the field of a call

// N, the number of nodes, where there are values at all.
fn nodes(number: u32, depth: u32) -> usize {
    if number != 0 {
        return 0;
    }
    if 8 < depth {
        return 0;
    }
    settings::nodes(depth)
}

// The answer, the values as a digest, what is not zero past them and in all scratch, and the first values in full.
fn report_field(
    rt: &impl Print,
    answer: Answer,
    n: usize,
    shown: usize,
    field: &[f32],
    grids: &Grids,
    edges: &[u32],
    distances: &[f32],
) -> io::Result<()> {
    tell_field_answer(rt, answer)?;
    tell_digest(rt, "hash-field", digest(field, n))?;
    print!(rt; "field-left")?;
    tell_count(rt, left(field, n))?;
    tell_scratch(rt, grids, edges, distances)?;
    tell_values(rt, field, shown)
}

// The field alone. Room for grids of depth 5, full of rubbish.
fn lend_field(rt: &impl Print, points: &[f32], settings: Settings, shown: usize) -> io::Result<()> {
    let mut field = [0.5f32; 32768];
    let mut grids = Grids {
        s0: &mut [0.5f32; 32768],
        s1: &mut [0.5f32; 32768],
        s2: &mut [0.5f32; 32768],
        s3: &mut [0.5f32; 32768],
        s4: &mut [0.5f32; 32768],
        s5: &mut [0.5f32; 32768],
        s6: &mut [0.5f32; 32768],
    };
    let mut edges = [7u32; 98304];
    let mut distances = [0.5f32; 512];
    let answer = poisson::poisson_field(
        points,
        settings,
        &mut field,
        &mut grids,
        &mut edges,
        &mut distances,
    );
    let n = nodes(answer.number, settings.depth);
    report_field(rt, answer, n, shown, &field, &grids, &edges, &distances)
}

// ---- the list

// Up to 512 points of six numbers. The mesh, then the field.
fn replay_call(rt: &impl Print, words: &mut Words<'_>) -> io::Result<()>
    ensures { length words.new ≤ length words.old }
{
    let settings = read_settings(words);
    let shown = words.decimal() as usize;
    let lengths = read_lengths(words);
    let mut points = [0.5f32; 3072];
    let n = points.len().min(words.decimal() as usize);
    read_floats(words, &mut points[..n]);
    lend(rt, &points[..n], settings, lengths)?;
    lend_field(rt, &points[..n], settings, shown)
}

// A call's first word is its name; where there is no word, the list is at its end.
fn replay_all(rt: &impl Print, text: &[u8]) -> io::Result<()> {
    let mut words = Words::new(text);
    while let Some(name) = words.next() {
        rt.write_all(b"call ")?;
        rt.write_all(name)?;
        rt.write_all(b"\n")?;
        replay_call(rt, &mut words)?;
    }
    Ok(())
}

fn main(rt: HostRuntime) -> io::Result<()> {
    let mut text = [0u8; 393216];
    let n = input::read_full(&rt, &mut text)?;
    replay_all(&rt, &text[..n])
}
