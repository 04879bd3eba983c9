// The field alone, for who wants the values and not the mesh: the same checks as far as they do not speak of the mesh, the same stages as far as the level,
// the same ending. The Rust has no such function. Nothing is required. `poisson` passes it on.
#![tactic(auto)]

ghost use Rattle.std.specs.Prelude.{◌≡◌, ◌^◌, ◌≤◌, take, length};
ghost use Rattle.answers.specs.Answers.{told};
ghost use Rattle.ending.specs.Slices.{scratch_of, field_slices_of, SameGrids, SameLengths};
ghost use Rattle.lists.specs.Lists.{zero32, padded};
ghost use Rattle.points.specs.Points.{usables};
ghost use Rattle.scan.specs.Reconstruction.{field_for};
ghost use Rattle.scan.specs.Words.{Lent};
ghost use Rattle.scan.specs.FieldAlone.{field_lengths, field_verdict, field_answer, field_results};
ghost use Rattle.field_call.specs.Outcome.{FieldDone};
ghost use Rattle.field_call.specs.Words.{FieldShown};

use answers::{Answer, Refusal};
use ending::Grids;
use points::Bounds;
use settings::{Lengths, Settings};

// The checks that do not speak of the mesh, in 01's order: 7, 1, 2, 3, 8, 4, 5. 8, "a scratch slice is shorter than stated", is also given where `field` has
// less room than a value a node.
#[tactic(auto, using(settings::specs::Laws::Passed::ready), unfolding(scan::specs::FieldAlone::field_verdict, scan::specs::FieldAlone::values_verdict))]
fn check_field(
    points: &[f32],
    settings: Settings,
    lengths: Lengths,
    room: usize,
) -> Result<(), Refusal>
    ensures { result ≡ field_verdict points.now settings lengths room }
{
    settings::early(points, settings, lengths)?;
    if room < settings::nodes(settings.depth) {
        return Err(Refusal::ScratchRoom);
    }
    scan::check_points(points)
}

// `to` becomes `from`, with the one pattern of a NaN.
fn copy_values(from: &[f32], to: &mut [f32])
    requires { length from.now ≡ length to.old }
    ensures { to.new ≡ from.now }
{
    for i in 0..to.len() {
        to[i] = arith::canonical(from[i]);
    }
}

// The values at the front of `field`, zeros past them.
fn hand_over(values: &[f32], field: &mut [f32])
    requires { length values.now ≤ length field.old }
    ensures { field.new ≡ padded zero32 (length field.old) values.now }
{
    let n = values.len();
    copy_values(values, &mut field[..n]);
    lists::clear_from(field, n);
}

// The field at the front of the first grid goes to the front of `field`.
fn hand_over_front(n: usize, grids: &Grids, field: &mut [f32])
    requires { (n ≤ length grids.now.s0.now) × (n ≤ length field.old) }
    ensures { field.new ≡ padded zero32 (length field.old) (take n grids.now.s0.now) }
{
    hand_over(&grids.s0[..n], field);
}

// The stages up to the level.
fn solve_field(
    points: &[f32],
    settings: Settings,
    field: &mut [f32],
    grids: &mut Grids,
    distances: &mut [f32],
) -> Answer
    requires depth_in_bounds { 8 ^ settings.depth ≤ length field.old }
    requires lent { Lent points.now settings grids.old distances.old }
    ensures same { SameGrids grids.old grids.new × SameLengths grids.old grids.new }
    ensures answered { result ≡ field_answer (usables points.now) settings }
    ensures values { field.new ≡ padded zero32 (length field.old) (field_for (usables points.now) settings) }
{
    let bounds = Bounds::of(points);
    let g = scan::make_grid(bounds, settings);
    let level = scan::field_and_level(points, settings, bounds, g, grids, distances);
    hand_over_front(g.len(), grids, field);
    Answer {
        number: 0,
        usable: points::usable_count(points),
        vertices: 0,
        faces: 0,
        level,
        low: [0.0, 0.0, 0.0],
        high: [0.0, 0.0, 0.0],
    }
}

// A refusal of the checks, or the stages. The edge table is not used, but checked for its length as in the whole call.
fn refuse_or_solve(
    points: &[f32],
    settings: Settings,
    field: &mut [f32],
    grids: &mut Grids,
    edges: &[u32],
    distances: &mut [f32],
) -> Result<Answer, Refusal>
    ensures same { SameGrids grids.old grids.new × SameLengths grids.old grids.new }
    ensures shown { FieldShown
        (field_results points.now settings (field_lengths (scratch_of grids.old edges.now distances.old)) (length field.old))
        (told result) field.old field.new }
{
    let lengths = scan::lengths_of(&[], &[], grids, edges, distances);
    let checked = check_field(points, settings, lengths, field.len());
    if let Err(refusal) = checked {
        lists::clear(field);
        return Err(refusal);
    }
    Ok(solve_field(points, settings, field, grids, distances))
}

// The field and the level in lent slices: an answer without a mesh, the N values at the front of `field`, and zeros everywhere else.
pub fn poisson_field(
    points: &[f32],
    settings: Settings,
    field: &mut [f32],
    grids: &mut Grids,
    edges: &mut [u32],
    distances: &mut [f32],
) -> Answer
    ensures same { SameGrids grids.old grids.new }
    ensures done { FieldDone (field_results points.now settings) result
        (field_slices_of field.old grids.old edges.old distances.old)
        (field_slices_of field.new grids.new edges.new distances.new) }
{
    let outcome = refuse_or_solve(points, settings, field, grids, edges, distances);
    ending::clear_scratch(grids, edges, distances);
    Answer::told(outcome)
}
