// Trilinear places and samples. The Rust's `trilinear` gives eight pairs at once; here a Cell is asked for the weight and the node of each corner.
ghost use Rattle.std.specs.Prelude.{◌≡◌, ◌*◌, length};
ghost use Rattle.grid.specs.Grid.{Sides, along_of, cell_at, CellInside, corner_bits, share_along, weight_at, cell_corner, sampled, all_nodes};

use crate::{Along, Cell, Grid, Node};

// The cell along one axis. The cast is total, 0 for a NaN, and the bound is one of whole numbers.
fn cell_along(n: usize, origin: f64, step: f64, p: f64) -> Along
    requires { Sides n }
    ensures { result ≡ along_of n origin step p }
{
    let u = arith::clamp((p - origin) / step, 0.0, (n - 1) as f64);
    let floor = arith::to_whole(u);
    let cell = if floor < (n - 2) as u64 {
        floor as usize
    } else {
        n - 2
    };
    Along {
        cell,
        frac: u - cell as f64,
    }
}

// Corner c's offsets di, dj, dk are its bits 2, 1, 0.
fn offsets(c: usize) -> [usize; 3]
    ensures { result ≡ corner_bits c }
{
    [c / 4 % 2, c / 2 % 2, c % 2]
}

// A corner's weight along one axis: the fraction at the far side, what is left of 1 at the near one.
fn side(d: usize, t: f64) -> f64
    ensures { result ≡ share_along d t }
{
    if d == 0 { 1.0 - t } else { t }
}

impl Cell {
    // Corner c's weight, (wi·wj)·wk.
    pub fn weight(self, c: usize) -> f64
        ensures { result ≡ weight_at self c }
    {
        let d = offsets(c);
        side(d[0], self.frac[0]) * side(d[1], self.frac[1]) * side(d[2], self.frac[2])
    }
}

impl Grid {
    // The cell of a place, which may be any three floats.
    pub fn cell(self, p: [f64; 3]) -> Cell
        requires { Sides self.nodes }
        ensures { (result ≡ cell_at self p) × CellInside self.nodes result }
    {
        let x = cell_along(self.nodes, self.origin[0], self.step, p[0]);
        let y = cell_along(self.nodes, self.origin[1], self.step, p[1]);
        let z = cell_along(self.nodes, self.origin[2], self.step, p[2]);
        Cell {
            base: [x.cell, y.cell, z.cell],
            frac: [x.frac, y.frac, z.frac],
        }
    }

    // Corner c of a cell.
    pub fn corner(self, cell: Cell, c: usize) -> Node
        requires sides { Sides self.nodes }
        requires cell_inside { CellInside self.nodes cell }
        ensures { result.0 ≡ cell_corner self.nodes cell c }
    {
        let d = offsets(c);
        self.node([
            cell.base[0] + d[0],
            cell.base[1] + d[1],
            cell.base[2] + d[2],
        ])
    }

    // The trilinear value at a place: weight·value added in corner order, from -0.0 as the Rust's `sum`.
    pub fn sample(self, values: &[f32], p: [f64; 3]) -> f64
        requires sides { Sides self.nodes }
        requires values_len { length values.now ≡ all_nodes self }
        ensures { result ≡ sampled self values.now p }
    {
        let cell = self.cell(p);
        let mut sum = -0.0;
        for c in 0..8 {
            let place = self.corner(cell, c).place();
            sum = sum + cell.weight(c) * arith::widen(values[place]);
        }
        sum
    }
}
