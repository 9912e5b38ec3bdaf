// SPDX-FileCopyrightText: 2026 The PPVM Authors
// SPDX-License-Identifier: Apache-2.0

// The product A†B of two operators as sums in word order, in a work table: its first places hold the
// sums, and the operators' terms stand after them.
ghost use Rattle.std.specs.Prelude.{◌≡◌, ◌+◌, ◌-◌, ◌*◌, ◌<◌, map, ◌∷◌, []};
ghost use Rattle.number.specs.Floats.{floats};
ghost use Rattle.gksl.specs.Rules.{pairs_over};
ghost use Rattle.gksl.specs.Words.{pauli};
ghost use Rattle.operator_product.specs.Product.{formed_term, SumRoom, RowRoom, PairRoom, Forms};
ghost use Rattle.model.specs.Terms.{terms_in, terms_of};
ghost use Rattle.model.specs.Between.{onto};

use model::stored::Range;
use model::term::{Term, term_at};
use number::scalar::{conj, mul, phase_factor};
use sums::sums::put;
use word::algebra::pauli_mul;
use word::flat::WORD_LANES;

// The places of the sums: 16 terms times 16.
pub const SUM_PLACES: usize = 256;

const SUM_LANES: usize = WORD_LANES * SUM_PLACES;

// The conjugate of a's number × b's number × i^phase, onto a·b.
fn formed_term(a: Term, b: Term) -> Term
    ensures { onto result ≡ formed_term (onto a) (onto b) }
{
    let left = a.word;
    let right = b.word;
    let product = pauli_mul(left, right);
    let word = product.word;
    let bare = mul(conj(a.number), b.number);
    Term {
        word,
        number: mul(bare, phase_factor(product.phase)),
    }
}

// Puts a term to the sums, of which there are `count`.
fn put_sum(words: &mut [u64], numbers: &mut [f64], count: usize, t: Term) -> usize
    requires { SumRoom count words.old numbers.old }
    ensures { Forms (onto t ∷ []) count words.old numbers.old result words.new numbers.new }
{
    let w = t.word;
    let z = t.number;
    let added = put(
        &mut words[0..SUM_LANES],
        &mut numbers[0..512],
        SUM_PLACES,
        count,
        w,
        z,
    );
    // There is room: the sums are fewer than their places.
    let Some(m) = added else {
        return count;
    };
    m
}

// Puts the products of a with the terms from place `start` to before `end` to the sums, of which
// there are `len`.
fn put_row(
    words: &mut [u64],
    numbers: &mut [f64],
    len: usize,
    a: Term,
    start: usize,
    end: usize,
) -> usize
    requires { RowRoom len start end words.old numbers.old }
    ensures { Forms (map (formed_term (onto a)) (terms_in words.old numbers.old start end)) len words.old numbers.old result words.new numbers.new }
{
    let mut count = len;
    for j in start..end {
        let b = term_at(words, numbers, j);
        let t = formed_term(a, b);
        count = put_sum(words, numbers, count, t);
    }
    count
}

// The sums of A†B, for the terms of A in `left` and those of B in `right`: how many words there are.
pub fn precompute_adag_b(words: &mut [u64], numbers: &mut [f64], left: Range, right: Range) -> usize
    requires { PairRoom left right words.old numbers.old }
    ensures { Forms (pairs_over floats pauli formed_term (terms_of words.old numbers.old left) (terms_of words.old numbers.old right)) 0 words.old numbers.old result words.new numbers.new }
{
    let mut count = 0;
    for i in left.start..left.end {
        let a = term_at(words, numbers, i);
        count = put_row(words, numbers, count, a, right.start, right.end);
    }
    count
}
