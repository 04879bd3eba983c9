// What a later level starts from: the level before, sampled.
ghost use Rattle.std.specs.Prelude.{◌≡◌, ◌<◌, ◌≤◌, length, take};
ghost use Rattle.grid.specs.Grid.{Sides, all_nodes};
ghost use Rattle.levels.specs.Levels.{start_at, start_from};

use grid::{Grid, Node};

// One node: the level before at the node's own place, narrowed; 0 on the boundary, which is not sampled.
fn start_at(coarse: Grid, g: Grid, before: &[f32], node: Node) -> f32
    requires sides { Sides coarse.nodes }
    requires sides_2 { Sides g.nodes }
    requires node_bound { (node.0 < all_nodes g) × (length before.now ≡ all_nodes coarse) }
    ensures { result ≡ start_at coarse g before.now node.0 }
{
    let at = g.coords(node);
    if g.is_boundary(at) {
        return 0.0;
    }
    arith::narrow(coarse.sample(before, g.world(at)))
}

// Every node.
fn start(coarse: Grid, g: Grid, before: &[f32], x: &mut [f32])
    requires sides { Sides coarse.nodes }
    requires sides_2 { Sides g.nodes }
    requires before_len { (length before.now ≡ all_nodes coarse) × (length x.old ≡ all_nodes g) }
    ensures { x.new ≡ start_from coarse g before.now }
{
    for q in 0..x.len() {
        x[q] = start_at(coarse, g, before, Node::of(q));
    }
}

// The front of x, which holds the level before, becomes the start of the level g. `before` is where the level before is kept meanwhile.
pub fn start_front(coarse: Grid, g: Grid, before: &mut [f32], x: &mut [f32])
    requires sides { Sides coarse.nodes }
    requires sides_2 { Sides g.nodes }
    requires coarse_in_bounds { (all_nodes coarse ≤ length before.old) × (all_nodes coarse ≤ length x.old) × (all_nodes g ≤ length x.old) }
    ensures { take (all_nodes g) x.new ≡ start_from coarse g (take (all_nodes coarse) x.old) }
{
    let n = coarse.len();
    let m = g.len();
    vectors::copy(&mut before[..n], &x[..n]);
    start(coarse, g, &before[..n], &mut x[..m]);
}
