// SPDX-FileCopyrightText: 2026 The PPVM Authors
// SPDX-License-Identifier: Apache-2.0

// K by its places, row by row: its largest squared magnitude, the first entry that is not the
// conjugate of its mirror entry, and the entries that make pairs.
ghost use Rattle.std.specs.Prelude.{◌≡◌, ◌*◌, ◌<◌, ◌≤◌, length};
ghost use Rattle.number.specs.Numbers.{largest_over};
ghost use Rattle.number.specs.Floats.{floats};
ghost use Rattle.sums.specs.Numbers.{complexes};
ghost use Rattle.lent.specs.Tests.{first_to};
ghost use Rattle.k_matrix.specs.Matrix.{apart, apart_at, is_pair, pair_places};
ghost use Rattle.k_matrix.specs.Work.{Square};

use number::scalar::{conj, larger, near, negligible_beside, norm_sqr, sub};
use sums::numbers::complex_at;

// The largest squared magnitude of an entry.
pub fn largest_square(k: &[f64]) -> f64
    ensures { result ≡ largest_over floats (complexes k.now) }
{
    let places = k.len() / 2;
    let mut largest = 0.0;
    for p in 0..places {
        largest = larger(largest, norm_sqr(complex_at(k, p)));
    }
    largest
}

// Whether the entry in row n and column m is not the conjugate of its mirror entry.
fn entries_apart(k: &[f64], ops: usize, largest: f64, n: usize, m: usize) -> bool
    requires { Square ops k.now largest × (n < ops) × (m < ops) }
    ensures { result ≡ apart floats ops (complexes k.now) n m }
{
    let own = complex_at(k, n * ops + m);
    let mirror = complex_at(k, m * ops + n);
    !near(norm_sqr(sub(own, conj(mirror))), largest)
}

// The first place, its row not above its column, whose entry is so; or the count of all places.
pub fn first_apart(k: &[f64], ops: usize, largest: f64) -> usize
    requires { Square ops k.now largest }
    ensures { result ≡ first_to (ops * ops) (apart_at floats ops (complexes k.now)) }
{
    let places = ops * ops;
    for p in 0..places {
        let n = p / ops;
        let m = p % ops;
        if n <= m {
            if entries_apart(k, ops, largest, n, m) {
                return p;
            }
        }
    }
    places
}

// Whether the entry at a place makes a pair: its row is not above its column, and it is not
// negligible beside the largest one.
pub fn makes_pair(k: &[f64], ops: usize, largest: f64, p: usize) -> bool
    requires { Square ops k.now largest × (p < ops * ops) }
    ensures { result ≡ is_pair floats ops (complexes k.now) p }
{
    if p % ops < p / ops {
        return false;
    }
    !negligible_beside(norm_sqr(complex_at(k, p)), largest)
}

// How many pairs there are.
pub fn count_pairs(k: &[f64], ops: usize, largest: f64) -> usize
    requires { Square ops k.now largest }
    ensures { (result ≡ length (pair_places floats ops (complexes k.now))) × (result ≤ 4096) }
{
    let places = ops * ops;
    let mut count = 0;
    for p in 0..places {
        if makes_pair(k, ops, largest, p) {
            count += 1;
        }
    }
    count
}
