// SPDX-FileCopyrightText: 2026 The PPVM Authors
// SPDX-License-Identifier: Apache-2.0

// The thinned product of a pair after K, laid in the terms table.
ghost use Rattle.std.specs.Prelude.{map};
ghost use Rattle.number.specs.Floats.{cx};
ghost use Rattle.sums.specs.Sums.{sum_rows};
ghost use Rattle.model_build.specs.Thinned.{thinned, KeepRoom, Keeps};
ghost use Rattle.k_matrix.specs.Pairs.{scaled};

use model::term::term_at;
use number::scalar::{Complex, mul, negligible, norm_sqr};
use sums::numbers::set_complex;
use word::flat::set_word;

// Lays K × those sums of the first `len` that thinning leaves, at `at` and after it: the place after
// the last.
pub fn store_scaled(
    words: &[u64],
    numbers: &[f64],
    len: usize,
    k: Complex,
    t_words: &mut [u64],
    t_numbers: &mut [f64],
    at: usize,
) -> usize
    requires { KeepRoom len words.now numbers.now at t_words.old t_numbers.old }
    ensures { Keeps (map (scaled (cx k)) (thinned (sum_rows len words.now numbers.now))) at t_words.old t_numbers.old result t_words.new t_numbers.new }
{
    let mut place = at;
    for i in 0..len {
        let t = term_at(words, numbers, i);
        let z = t.number;
        if negligible(norm_sqr(z)) {
            continue;
        }
        let w = t.word;
        set_word(t_words, place, w);
        set_complex(t_numbers, place, mul(k, z));
        place += 1;
    }
    place
}
