// The checks, in 01's order: 7, 1, 2, 3, 8, 4, 5, 9, 10, 6. Each answers its line of the "exactly when" column: its refusal, or `Ok(())`.
ghost use Rattle.std.specs.Prelude.{◌≡◌, ◌*◌, ◌^◌, ◌<◌, ◌≤◌};
ghost use Rattle.points.specs.Points.{given};
ghost use Rattle.settings.specs.Refusals.{point_slice_verdict, no_points_verdict, depth_verdict, smoothing_verdict, any_short, scratch_verdict};
ghost use Rattle.settings.specs.Refusals.{usable_verdict, extent_verdict, room_verdict, mesh_verdict, early_verdict};

use crate::{Lengths, Settings};
use answers::Refusal;
use points::Point;

// "Over 1,048,576 points."
const MOST_POINTS: usize = 1048576;

// 7.
#[tactic(auto, unfolding(crate::specs::Refusals::point_slice_verdict))]
fn point_slice_verdict(points: &[f32]) -> Result<(), Refusal>
    ensures { result ≡ point_slice_verdict points.now }
{
    if points.len() % Point::NUMBERS != 0 || MOST_POINTS < Point::given(points) {
        return Err(Refusal::PointSlice);
    }
    Ok(())
}

// 1.
#[tactic(auto, unfolding(crate::specs::Refusals::no_points_verdict))]
fn no_points_verdict(points: &[f32]) -> Result<(), Refusal>
    ensures { result ≡ no_points_verdict points.now }
{
    if Point::given(points) == 0 {
        return Err(Refusal::NoPoints);
    }
    Ok(())
}

// 2.
#[tactic(auto, unfolding(crate::specs::Refusals::depth_verdict))]
fn depth_verdict(depth: u32) -> Result<(), Refusal>
    ensures { result ≡ depth_verdict depth }
{
    if depth < 3 || 8 < depth {
        return Err(Refusal::Depth);
    }
    Ok(())
}

// 3. A NaN is not above zero either, and an infinity is.
#[tactic(auto, unfolding(crate::specs::Refusals::smoothing_verdict))]
fn smoothing_verdict(smoothing: f32) -> Result<(), Refusal>
    ensures { result ≡ smoothing_verdict smoothing }
{
    if smoothing > 0.0 {
        return Ok(());
    }
    Err(Refusal::Smoothing)
}

// N = 8^depth, the number of nodes.
pub fn nodes(depth: u32) -> usize
    requires { depth ≤ 8 }
    ensures { (result ≡ 8 ^ depth) × (result ≤ 16777216) }
{
    1usize << (3 * depth)
}

// Whether one of the seven is below n.
fn any_short(n: usize, grids: [usize; 7]) -> bool
    ensures { result ≡ any_short n grids }
{
    for length in grids {
        if length < n {
            return true;
        }
    }
    false
}

// 8.
#[tactic(auto, unfolding(crate::specs::Refusals::scratch_verdict))]
fn scratch_verdict(depth: u32, given: usize, lengths: Lengths) -> Result<(), Refusal>
    requires { depth ≤ 8 }
    ensures { result ≡ scratch_verdict depth given lengths }
{
    let n = nodes(depth);
    let grids = lengths.grids;
    if any_short(n, grids) || lengths.edges < 3 * n || lengths.distances < given {
        return Err(Refusal::ScratchRoom);
    }
    Ok(())
}

// 7, 1, 2, 3, 8: all that can be said before a point is looked at.
#[tactic(auto, using(crate::specs::Laws::Passed::depth_fits))]
pub fn early(points: &[f32], settings: Settings, lengths: Lengths) -> Result<(), Refusal>
    ensures { result ≡ early_verdict points.now settings lengths }
{
    point_slice_verdict(points)?;
    no_points_verdict(points)?;
    depth_verdict(settings.depth)?;
    smoothing_verdict(settings.smoothing)?;
    scratch_verdict(settings.depth, Point::given(points), lengths)
}

// 4.
#[tactic(auto, unfolding(crate::specs::Refusals::usable_verdict))]
pub fn usable_verdict(usable: usize) -> Result<(), Refusal>
    ensures { result ≡ usable_verdict usable }
{
    if usable < 10 {
        return Err(Refusal::TooFew);
    }
    Ok(())
}

// 5.
#[tactic(auto, unfolding(crate::specs::Refusals::extent_verdict))]
pub fn extent_verdict(extent: f64) -> Result<(), Refusal>
    ensures { result ≡ extent_verdict extent }
{
    if extent == 0.0 {
        return Err(Refusal::Flat);
    }
    Ok(())
}

// 9 and 10, of the untrimmed mesh.
#[tactic(auto, unfolding(crate::specs::Refusals::vertex_room_verdict, crate::specs::Refusals::face_room_verdict))]
pub fn room_verdict(vertices: usize, faces: usize, lengths: Lengths) -> Result<(), Refusal>
    requires { (vertices < 1000000000) × (faces < 1000000000) }
    ensures { result ≡ room_verdict vertices faces lengths }
{
    if lengths.vertices < 3 * vertices {
        return Err(Refusal::VertexRoom);
    }
    if lengths.faces < 3 * faces {
        return Err(Refusal::FaceRoom);
    }
    Ok(())
}

// 6, before trimming and after it.
#[tactic(auto, unfolding(crate::specs::Refusals::mesh_verdict))]
pub fn mesh_verdict(faces: usize) -> Result<(), Refusal>
    ensures { result ≡ mesh_verdict faces }
{
    if faces == 0 {
        return Err(Refusal::NoFace);
    }
    Ok(())
}
