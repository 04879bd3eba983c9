// Document 01, "Spacing": the middle one of the distances between neighbours. Beside the Rust's `median_spacing`.
ghost use Rattle.std.specs.Prelude.{◌≡◌, ◌+◌, ◌<◌, ◌≤◌, None, length, take};
ghost use Rattle.std.specs.Float.Ieee as Ieee;
ghost use Rattle.lists.specs.Lists.{zeros32};
ghost use Rattle.points.specs.Points.{given, usables};
ghost use Rattle.search.specs.Search.{inserted, sorted};
ghost use Rattle.search.specs.Spacing.{positive_or, first_positive, gaps_by, median_of, spacing_of};
ghost use Rattle.search.specs.Words.{put_gap, size_of, gap_by};

use crate::brute::{Least, nearest};
use points::{Point, usable_count};

// A distance if it is positive. An infinite one counts.
fn positive(d: f32) -> Option<f32>
    ensures { result ≡ positive_or d None }
{
    if d > 0.0 { Some(d) } else { None }
}

// The first of the two that is positive.
fn first_positive(least: Least) -> Option<f32>
    ensures { result ≡ first_positive least }
{
    match least {
        Least::Empty => None,
        Least::One(a) => positive(a),
        Least::Two(a, b) => positive(a).or(positive(b)),
    }
}

// d put in its place among the first m numbers, which ascend.
fn insert(list: &mut [f32], m: usize, d: f32)
    requires { m < length list.old }
    ensures { take (m + 1) list.new ≡ inserted Ieee.lt (take m list.old) d }
{
    let mut v = d;
    for k in 0..m {
        let a = list[k];
        if v < a {
            list[k] = v;
            v = a;
        }
    }
    list[m] = v;
}

// A gap put in its place among the first m numbers. How many there are then.
fn keep(list: &mut [f32], m: usize, g: Option<f32>) -> usize
    requires { m < length list.old }
    ensures { (result ≡ m + size_of g) × (take result list.new ≡ put_gap (take m list.old) g) }
{
    match g {
        Some(d) => {
            insert(list, m, d);
            m + 1
        }
        None => m,
    }
}

// The same with the gap of usable point number `seen`, if it is one of 0, s, 2s..
fn pick(points: &[f32], list: &mut [f32], s: usize, m: usize, seen: usize, p: Point) -> usize
    requires { (0 < s) × (m < length list.old) }
    ensures { (result ≡ m + size_of (gap_by s seen (usables points.now) p))
        × (take result list.new ≡ put_gap (take m list.old) (gap_by s seen (usables points.now) p)) }
{
    if seen % s == 0 {
        let at = p.at;
        return keep(list, m, first_positive(nearest(points, at)));
    }
    m
}

// The gaps of the usable points 0, s, 2s.., ascending at the front of the list. How many there are.
fn gaps(points: &[f32], list: &mut [f32], s: usize) -> usize
    requires { (0 < s) × (given points.now ≤ length list.old) }
    ensures { (result ≡ length (gaps_by s (usables points.now) (usables points.now)))
        × (result ≤ given points.now)
        × (take result list.new ≡ sorted Ieee.lt (gaps_by s (usables points.now) (usables points.now))) }
{
    let mut m = 0usize;
    let mut seen = 0usize;
    for p in Point::all(points) {
        if p.usable() {
            m = pick(points, list, s, m, seen, p);
            seen += 1;
        }
    }
    m
}

// The gap of rank length/2, counted from 0, and 0 where there is none.
fn median(points: &[f32], list: &mut [f32], s: usize) -> f32
    requires { (0 < s) × (given points.now ≤ length list.old) }
    ensures { result ≡ median_of (gaps_by s (usables points.now) (usables points.now)) }
{
    let m = gaps(points, list, s);
    if 0 < m { list[m / 2] } else { 0.0 }
}

// The spacing of the usable points, whose largest extent is given: about a thousand of them are asked. The list, one number for each given point, holds
// the distances on the way and zeros at the end.
pub fn spacing(points: &[f32], list: &mut [f32], extent: f64) -> f64
    requires { given points.now ≤ length list.old }
    ensures { (result ≡ spacing_of (usables points.now) extent) × (list.new ≡ zeros32 (length list.old)) }
{
    let s = lists::stride_for(1000, usable_count(points));
    let middle = median(points, list, s);
    lists::clear(list);
    arith::largest(arith::widen(middle), extent * 0.000001)
}
