// SPDX-FileCopyrightText: 2026 The PPVM Authors
// SPDX-License-Identifier: Apache-2.0

// Pairs compiled through the work table, where the terms of all operators stand past the places of
// the sums: a factor for each term of the left operator with each of the right one, then the thinned
// product after K. They are counted, then stored.
ghost use Rattle.std.specs.Prelude.{◌≡◌, map, ℕ, ◌+◌, ◌<◌, ◌≤◌, length};
ghost use Rattle.number.specs.Floats.{cx};
ghost use Rattle.sums.specs.Numbers.{complexes};
ghost use Rattle.lent.specs.Laid.{total};
ghost use Rattle.operator_product.specs.Product.{PairRoom};
ghost use Rattle.model_build.specs.Built as Compiled;
ghost use Rattle.model_build.specs.Thinned.{LaysTerms, StoreRoom};
ghost use Rattle.model_build.specs.Work.{JumpRoom, StoresJump, JumpsRoom, StoresJumps};
ghost use Rattle.k_matrix.specs.Pairs.{factor_of, factors_of, compile_pair, range_of, pairs_of};
ghost use Rattle.k_matrix.specs.Work.{Square, OperatorsRoom, operators_in, FactorsRoom, CountsPair, WorkStays};
ghost use Rattle.model.specs.Terms.{terms_of};
ghost use Rattle.model.specs.Between.{onto};

use k_matrix::matrix::makes_pair;
use k_matrix::scaled::store_scaled;
use model::stored::{Range, lay_entry};
use model::term::{Term, term_at};
use model_build::items::sum_of;
use model_build::store::count_kept;
use number::scalar::{Complex, conj, mul};
use operator_product::product::precompute_adag_b;
use sums::numbers::{complex_at, set_complex};
use word::flat::set_word;

// The conjugate of a's number × b's number × K, with b's word.
fn factor_of(a: Term, b: Term, k: Complex) -> Term
    ensures { onto result ≡ factor_of (cx k) (onto a) (onto b) }
{
    let word = b.word;
    let bare = mul(conj(a.number), b.number);
    Term {
        word,
        number: mul(bare, k),
    }
}

// Lays the factors of a with the terms in `right`, at `at` and after it.
fn store_row(
    words: &[u64],
    numbers: &[f64],
    a: Term,
    right: Range,
    k: Complex,
    t_words: &mut [u64],
    t_numbers: &mut [f64],
    at: usize,
)
    requires { StoreRoom right.start right.end words.now numbers.now at t_words.old t_numbers.old }
    ensures { LaysTerms (map (factor_of (cx k) (onto a)) (terms_of words.now numbers.now right)) at t_words.old t_numbers.old t_words.new t_numbers.new }
{
    for j in right.start..right.end {
        let b = term_at(words, numbers, j);
        let f = factor_of(a, b, k);
        let w = f.word;
        let z = f.number;
        let place = at + (j - right.start);
        set_word(t_words, place, w);
        set_complex(t_numbers, place, z);
    }
}

// Lays the factors of the terms in `left` with those in `right`, at `at` and after it.
fn store_factors(
    words: &[u64],
    numbers: &[f64],
    left: Range,
    right: Range,
    k: Complex,
    t_words: &mut [u64],
    t_numbers: &mut [f64],
    at: usize,
)
    requires { FactorsRoom left right words.now numbers.now at t_words.old t_numbers.old }
    ensures { LaysTerms (factors_of (cx k) (terms_of words.now numbers.now left) (terms_of words.now numbers.now right)) at t_words.old t_numbers.old t_words.new t_numbers.new }
{
    let width = right.end - right.start;
    let mut place = at;
    for i in left.start..left.end {
        let a = term_at(words, numbers, i);
        store_row(words, numbers, a, right, k, t_words, t_numbers, place);
        place += width;
    }
}

// How many terms are stored for the pair of the operators in two ranges of the work table.
fn count_pair(words: &mut [u64], sums: &mut [f64], left: Range, right: Range) -> usize
    requires { PairRoom left right words.old sums.old }
    ensures { CountsPair (terms_of words.old sums.old left) (terms_of words.old sums.old right) result × WorkStays words.old sums.old words.new sums.new }
{
    let count = precompute_adag_b(words, sums, left, right);
    (left.end - left.start) * (right.end - right.start) + count_kept(words, sums, count)
}

// Stores the pair of the operators in two ranges of the work table, whose own terms stand in two
// ranges of the terms table, as entry j with terms at `at` and after it: the place after the last.
fn store_pair(
    words: &mut [u64],
    sums: &mut [f64],
    left: Range,
    right: Range,
    k: Complex,
    own_left: Range,
    own_right: Range,
    j: usize,
    at: usize,
    jumps: &mut [u64],
    rates: &mut [f64],
    t_words: &mut [u64],
    t_numbers: &mut [f64],
) -> usize
    requires { PairRoom left right words.old sums.old × JumpRoom (compile_pair (cx k) own_left own_right (terms_of words.old sums.old left) (terms_of words.old sums.old right)) j at jumps.old rates.old t_words.old t_numbers.old }
    ensures { StoresJump (compile_pair (cx k) own_left own_right (terms_of words.old sums.old left) (terms_of words.old sums.old right)) j at jumps.old rates.old t_words.old t_numbers.old result jumps.new rates.new t_words.new t_numbers.new × WorkStays words.old sums.old words.new sums.new }
{
    let middle = at + (left.end - left.start) * (right.end - right.start);
    store_factors(words, sums, left, right, k, t_words, t_numbers, at);
    let count = precompute_adag_b(words, sums, left, right);
    let last = store_scaled(words, sums, count, k, t_words, t_numbers, middle);
    rates[j] = 0.0;
    let product = Range {
        start: middle,
        end: last,
    };
    lay_entry(jumps, j, 2, own_left, own_right, at, product);
    last
}

// The places of operator n's terms, where those of the first start at `from`.
fn operator_range(from: usize, counts: &[u64], n: usize) -> Range
    requires { (from + total counts.now < 18446744073709551616) × (n < length counts.now) }
    ensures { result ≡ range_of from counts.now n }
{
    let start = from + sum_of(&counts[0..n]);
    Range {
        start,
        end: start + counts[n] as usize,
    }
}

// How many terms are stored for the pairs of K.
pub fn count_terms(
    k: &[f64],
    counts: &[u64],
    largest: f64,
    words: &mut [u64],
    sums: &mut [f64],
) -> usize
    requires { Square (length counts.now) k.now largest × OperatorsRoom counts.now words.old sums.old }
    ensures { ((from : ℕ) → result ≡ length (Compiled.terms_of (pairs_of from counts.now (complexes k.now) (operators_in counts.now words.old sums.old)))) × (result ≤ 2097152) × WorkStays words.old sums.old words.new sums.new }
{
    let ops = counts.len();
    let places = ops * ops;
    let mut kept = 0;
    for p in 0..places {
        if !makes_pair(k, ops, largest, p) {
            continue;
        }
        let left = operator_range(256, counts, p / ops);
        let right = operator_range(256, counts, p % ops);
        kept += count_pair(words, sums, left, right);
    }
    kept
}

// Stores the pairs of K over operators whose terms start at `from` in the terms table, from entry
// `first` and place `at` on.
pub fn store_pairs(
    k: &[f64],
    counts: &[u64],
    largest: f64,
    from: usize,
    first: usize,
    at: usize,
    words: &mut [u64],
    sums: &mut [f64],
    jumps: &mut [u64],
    rates: &mut [f64],
    t_words: &mut [u64],
    t_numbers: &mut [f64],
)
    requires { Square (length counts.now) k.now largest × OperatorsRoom counts.now words.old sums.old × (from + total counts.now < 18446744073709551616) × JumpsRoom (pairs_of from counts.now (complexes k.now) (operators_in counts.now words.old sums.old)) first at jumps.old rates.old t_words.old t_numbers.old }
    ensures { StoresJumps (pairs_of from counts.now (complexes k.now) (operators_in counts.now words.old sums.old)) first at jumps.old rates.old t_words.old t_numbers.old jumps.new rates.new t_words.new t_numbers.new }
{
    let ops = counts.len();
    let places = ops * ops;
    let mut place = at;
    let mut j = first;
    for p in 0..places {
        if !makes_pair(k, ops, largest, p) {
            continue;
        }
        let n = p / ops;
        let m = p % ops;
        place = store_pair(
            words,
            sums,
            operator_range(256, counts, n),
            operator_range(256, counts, m),
            complex_at(k, p),
            operator_range(from, counts, n),
            operator_range(from, counts, m),
            j,
            place,
            jumps,
            rates,
            t_words,
            t_numbers,
        );
        j += 1;
    }
}
