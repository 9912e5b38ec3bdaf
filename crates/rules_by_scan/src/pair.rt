// SPDX-FileCopyrightText: 2026 The PPVM Authors
// SPDX-License-Identifier: Apache-2.0

// What a stored pair adds for a word p, put to the sums of a lent table: its factors with p between
// the two words, and the words of its product by where p lies.
ghost use Rattle.std.specs.Prelude.{◌≡◌, cond, map, ◌+◌, ◌*◌, ◌<◌, ◌≤◌};
ghost use Rattle.word.specs.Product.{product};
ghost use Rattle.number.specs.Floats.{floats};
ghost use Rattle.gksl.specs.Rules.{gather_over};
ghost use Rattle.gksl.specs.Words.{pauli};
ghost use Rattle.model.specs.Stored.{range};
ghost use Rattle.model.specs.Tested.{width};
ghost use Rattle.model.specs.Terms.{terms_in, terms_of};
ghost use Rattle.rule_terms.specs.Adds.{folded, doubled, each_factor, diagonal, both_sides, one_side};
ghost use Rattle.rule_terms.specs.Sums.{SumsRoom, TermsRoom, PutsAll};
ghost use Rattle.model.specs.Between.{onto};

use model::stored::Range;
use model::term::{Term, term_at};
use number::scalar::{mul, neg, phase_factor, real, slight};
use rule_terms::terms::factor_term;
use sums::sums::put;
use word::algebra::{comm_product, pauli_mul};
use word::word::Word;

// One word of a diagonal pair's product: minus its number × sign, where the phase is even.
fn put_diagonal_term(
    lanes: &mut [u64],
    sums: &mut [f64],
    room: usize,
    len: usize,
    c: Term,
    p: Word,
) -> Option<usize>
    requires { SumsRoom room len lanes.old sums.old }
    ensures { PutsAll room len (diagonal p (onto c)) lanes.old sums.old lanes.new sums.new result }
{
    let w = c.word;
    let product = pauli_mul(w, p);
    let unit = phase_factor(product.phase);
    // The real part of i^phase is the sign, 0 where the phase is odd.
    let sign = unit.re;
    if sign == 0.0 {
        return Some(len);
    }
    let target = product.word;
    let z = neg(mul(c.number, real(sign)));
    put(lanes, sums, room, len, target, z)
}

// The words of a diagonal pair's product.
pub fn put_diagonal(
    lanes: &mut [u64],
    sums: &mut [f64],
    room: usize,
    len: usize,
    t_words: &[u64],
    t_numbers: &[f64],
    product: Range,
    p: Word,
) -> Option<usize>
    requires { SumsRoom room len lanes.old sums.old × TermsRoom product t_words.now t_numbers.now }
    ensures { PutsAll room len (gather_over floats pauli (diagonal p) (terms_of t_words.now t_numbers.now product)) lanes.old sums.old lanes.new sums.new result }
{
    let mut count = len;
    for j in product.start..product.end {
        let c = term_at(t_words, t_numbers, j);
        let added = put_diagonal_term(lanes, sums, room, count, c, p);
        let Some(m) = added else {
            return None;
        };
        count = m;
    }
    Some(count)
}

// One word of the product where p is on both sides: minus 2 × real part × sign, where the phase is even.
fn put_both_term(
    lanes: &mut [u64],
    sums: &mut [f64],
    room: usize,
    len: usize,
    c: Term,
    p: Word,
) -> Option<usize>
    requires { SumsRoom room len lanes.old sums.old }
    ensures { PutsAll room len (both_sides p (onto c)) lanes.old sums.old lanes.new sums.new result }
{
    let w = c.word;
    let x = c.number.re;
    if slight(x) {
        return Some(len);
    }
    let product = pauli_mul(w, p);
    let unit = phase_factor(product.phase);
    let sign = unit.re;
    if sign == 0.0 {
        return Some(len);
    }
    let target = product.word;
    put(lanes, sums, room, len, target, real(-(2.0 * x * sign)))
}

// The words of the product where p is on both sides.
pub fn put_both(
    lanes: &mut [u64],
    sums: &mut [f64],
    room: usize,
    len: usize,
    t_words: &[u64],
    t_numbers: &[f64],
    product: Range,
    p: Word,
) -> Option<usize>
    requires { SumsRoom room len lanes.old sums.old × TermsRoom product t_words.now t_numbers.now }
    ensures { PutsAll room len (gather_over floats pauli (both_sides p) (terms_of t_words.now t_numbers.now product)) lanes.old sums.old lanes.new sums.new result }
{
    let mut count = len;
    for j in product.start..product.end {
        let c = term_at(t_words, t_numbers, j);
        let added = put_both_term(lanes, sums, room, count, c, p);
        let Some(m) = added else {
            return None;
        };
        count = m;
    }
    Some(count)
}

// x, or minus x.
fn turned(x: f64, minus: bool) -> f64
    ensures { result ≡ cond minus (floats.opposite x) x }
{
    if minus { -x } else { x }
}

// One word of the product where p is on one side: plus or minus the imaginary part × factor.
fn put_one_term(
    lanes: &mut [u64],
    sums: &mut [f64],
    room: usize,
    len: usize,
    c: Term,
    p: Word,
    minus: bool,
) -> Option<usize>
    requires { SumsRoom room len lanes.old sums.old }
    ensures { PutsAll room len (one_side p (λ x. cond minus (floats.opposite x) x) (onto c)) lanes.old sums.old lanes.new sums.new result }
{
    let w = c.word;
    let x = c.number.im;
    if slight(x) {
        return Some(len);
    }
    let k = comm_product(w, p);
    if k.eps == 0.0 {
        return Some(len);
    }
    let target = k.word;
    let y = turned(x, minus);
    put(lanes, sums, room, len, target, real(y * k.eps))
}

// The words of the product where p is on one side: minus for the right only, plus for the left only.
pub fn put_one(
    lanes: &mut [u64],
    sums: &mut [f64],
    room: usize,
    len: usize,
    t_words: &[u64],
    t_numbers: &[f64],
    product: Range,
    p: Word,
    minus: bool,
) -> Option<usize>
    requires { SumsRoom room len lanes.old sums.old × TermsRoom product t_words.now t_numbers.now }
    ensures { PutsAll room len (gather_over floats pauli (one_side p (λ x. cond minus (floats.opposite x) x)) (terms_of t_words.now t_numbers.now product)) lanes.old sums.old lanes.new sums.new result }
{
    let mut count = len;
    for j in product.start..product.end {
        let c = term_at(t_words, t_numbers, j);
        let added = put_one_term(lanes, sums, room, count, c, p, minus);
        let Some(m) = added else {
            return None;
        };
        count = m;
    }
    Some(count)
}

// The factors of one left word a, from place `start` to before `end`.
fn put_factor_row(
    lanes: &mut [u64],
    sums: &mut [f64],
    room: usize,
    len: usize,
    t_words: &[u64],
    t_numbers: &[f64],
    start: usize,
    end: usize,
    a: Word,
    p: Word,
    double: bool,
) -> Option<usize>
    requires { SumsRoom room len lanes.old sums.old × TermsRoom (range start end) t_words.now t_numbers.now }
    ensures { PutsAll room len (map (cond double (doubled p) (folded p) a) (terms_in t_words.now t_numbers.now start end)) lanes.old sums.old lanes.new sums.new result }
{
    let ap = pauli_mul(a, p);
    let mut count = len;
    for j in start..end {
        let f = term_at(t_words, t_numbers, j);
        let t = factor_term(ap, f, double);
        let w = t.word;
        let z = t.number;
        let added = put(lanes, sums, room, count, w, z);
        let Some(m) = added else {
            return None;
        };
        count = m;
    }
    Some(count)
}

// The factors of each word in `left`, so many for each as `right` has, from place `factors` on.
pub fn put_factors(
    lanes: &mut [u64],
    sums: &mut [f64],
    room: usize,
    len: usize,
    t_words: &[u64],
    t_numbers: &[f64],
    left: Range,
    right: Range,
    factors: usize,
    p: Word,
    double: bool,
) -> Option<usize>
    requires { SumsRoom room len lanes.old sums.old × TermsRoom left t_words.now t_numbers.now × (right.start ≤ right.end) × TermsRoom (range factors (factors + width left * width right)) t_words.now t_numbers.now }
    ensures { PutsAll room len (each_factor p (cond double (doubled p) (folded p)) (width right) (terms_of t_words.now t_numbers.now left) (terms_in t_words.now t_numbers.now factors (factors + width left * width right))) lanes.old sums.old lanes.new sums.new result }
{
    let row = right.end - right.start;
    let mut count = len;
    let mut place = factors;
    for i in left.start..left.end {
        let t = term_at(t_words, t_numbers, i);
        let a = t.word;
        let next = place + row;
        let added = put_factor_row(
            lanes, sums, room, count, t_words, t_numbers, place, next, a, p, double,
        );
        let Some(m) = added else {
            return None;
        };
        count = m;
        place = next;
    }
    Some(count)
}
