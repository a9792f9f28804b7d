// What edges, triangles and tetrahedra have in common: N corners, where they lie, and what is worked out of two or three of them.
#![tactic(auto)]

ghost use Rattle.std.specs.Prelude.{◌≡◌, ◌*◌, ◌<◌, ◌≤◌, pos, ◌*ℤ◌};
ghost use Rattle.whole.specs.Packed.{cell, Bounded};
ghost use Rattle.paper.specs.Corners.{from, area};
ghost use Rattle.simplex.specs.Asks.{OnGrid};

use paper::Node;

// N corners and their coordinates.
#[derive(Clone, Copy)]
pub struct Shape<const N: usize> {
    pub corners: [Node; N],
    pub x: [u32; N],
    pub y: [u32; N],
}

// And in space.
#[derive(Clone, Copy)]
pub struct Space<const N: usize> {
    pub shape: Shape<N>,
    pub z: [u32; N],
}

// From corner p to corner q, along an axis.
pub fn apart<const N: usize>(axis: &[u32; N], p: usize, q: usize) -> i64
    requires { (p < N) × (q < N) }
    ensures { result ≡ from axis.now p q }
{
    axis[q] as i64 - axis[p] as i64
}

// Twice the signed area of corners p, q, r, seen over the axes f and g.
pub fn area<const N: usize>(f: &[u32; N], g: &[u32; N], p: usize, q: usize, r: usize) -> i64
    requires { OnGrid N f.now × OnGrid N g.now × (p < N) × (q < N) × (r < N) }
    ensures { result ≡ area f.now g.now p q r }
{
    apart(f, p, q) * apart(g, p, r) - apart(f, p, r) * apart(g, p, q)
}

// The most that refusal 6 lets pass of u and of each pair.
pub const SOFT: u64 = 4_000_000;

// k times two of a factor's numbers, one at each corner.
pub fn term<const N: usize>(k: u32, f: &[i64; N], i: usize, j: usize) -> i64
    requires { (k ≤ 500000) × Bounded (1023 * 1023) f.now × (i < N) × (j < N) }
    ensures { result ≡ pos k *ℤ (cell f.now i *ℤ cell f.now j) }
{
    k as i64 * (f[i] * f[j])
}
