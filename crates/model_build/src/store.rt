// SPDX-FileCopyrightText: 2026 The PPVM Authors
// SPDX-License-Identifier: Apache-2.0

// Terms carried from the work table to the terms table: an operator's own, and those of a product
// that thinning leaves.
ghost use Rattle.std.specs.Prelude.{◌≡◌, ◌∷◌, [], ◌+◌, ◌-◌, ◌*◌, ◌≤◌, length};
ghost use Rattle.word.specs.Flat.{word_lanes};
ghost use Rattle.sums.specs.Sums.{sum_rows};
ghost use Rattle.model.specs.Terms.{terms_in};
ghost use Rattle.model_build.specs.Thinned.{thinned, LaysTerms, StoreRoom, KeepRoom, Keeps};
ghost use Rattle.model.specs.Between.{onto};

use model::term::{Term, term_at};
use number::scalar::{negligible, norm_sqr};
use sums::numbers::set_complex;
use word::flat::set_word;

fn lay_term(t_words: &mut [u64], t_numbers: &mut [f64], at: usize, t: Term)
    requires { (word_lanes * at + word_lanes ≤ length t_words.old) × (2 * at + 2 ≤ length t_numbers.old) }
    ensures { LaysTerms (onto t ∷ []) at t_words.old t_numbers.old t_words.new t_numbers.new }
{
    let w = t.word;
    let z = t.number;
    set_word(t_words, at, w);
    set_complex(t_numbers, at, z);
}

// Lays the terms of the work table from place `from` to before `to`, at `at` and after it.
pub fn store_terms(
    words: &[u64],
    numbers: &[f64],
    from: usize,
    to: usize,
    t_words: &mut [u64],
    t_numbers: &mut [f64],
    at: usize,
)
    requires { StoreRoom from to words.now numbers.now at t_words.old t_numbers.old }
    ensures { LaysTerms (terms_in words.now numbers.now from to) at t_words.old t_numbers.old t_words.new t_numbers.new }
{
    for i in from..to {
        let t = term_at(words, numbers, i);
        lay_term(t_words, t_numbers, at + (i - from), t);
    }
}

// How many of the first `len` sums thinning leaves.
pub fn count_kept(words: &[u64], numbers: &[f64], len: usize) -> usize
    requires { (word_lanes * len ≤ length words.now) × (2 * len ≤ length numbers.now) }
    ensures { result ≡ length (thinned (sum_rows len words.now numbers.now)) }
{
    let mut kept = 0;
    for i in 0..len {
        let t = term_at(words, numbers, i);
        if !negligible(norm_sqr(t.number)) {
            kept += 1;
        }
    }
    kept
}

// Lays those sums of the first `len` that thinning leaves, at `at` and after it: the place after the
// last.
pub fn store_kept(
    words: &[u64],
    numbers: &[f64],
    len: usize,
    t_words: &mut [u64],
    t_numbers: &mut [f64],
    at: usize,
) -> usize
    requires { KeepRoom len words.now numbers.now at t_words.old t_numbers.old }
    ensures { Keeps (thinned (sum_rows len words.now numbers.now)) at t_words.old t_numbers.old result t_words.new t_numbers.new }
{
    let mut place = at;
    for i in 0..len {
        let t = term_at(words, numbers, i);
        if negligible(norm_sqr(t.number)) {
            continue;
        }
        lay_term(t_words, t_numbers, place, t);
        place += 1;
    }
    place
}
