// SPDX-FileCopyrightText: 2026 The PPVM Authors
// SPDX-License-Identifier: Apache-2.0

// What a general jump adds for a word p, put to the sums of a lent table: the sandwiches of its terms,
// then the words of L†L. Its terms, and those of L†L, stand in ranges of the terms table. Many of these
// words are p itself, which may stand at `at`, or at the place after it once another word is put in.
ghost use Rattle.std.specs.Prelude.{◌≡◌, List, map, ◌*◌, ◌≤◌, ◌<◌, Float, length};
ghost use Rattle.std.specs.Float.Ieee.{neg};
ghost use Rattle.word.specs.Flat.{word_lanes};
ghost use Rattle.number.specs.Floats.{floats};
ghost use Rattle.gksl.specs.Rules.{overlaps_over, pairs_over, gather_over};
ghost use Rattle.gksl.specs.Words.{pauli};
ghost use Rattle.model.specs.Terms.{terms_of};
ghost use Rattle.model.specs.Stored.{ModelTables};
ghost use Rattle.model.specs.declared.stored.Jump.TheVariants.{General};
ghost use Rattle.rule_terms.specs.Adds.{sandwich, dampen, jump_adds};
ghost use Rattle.rule_terms.specs.Sums.{SumsRoom, TermsRoom, PutsAll};
ghost use Rattle.model.specs.Between.{onto};

use model::stored::Range;
use model::term::{Term, term_at};
use number::scalar::{mul, neg, real};
use rule_terms::terms::{sandwich_term, sign_of};
use sums::sums::put_at;
use word::algebra::pauli_mul;
use word::flat::word_at;
use word::word::{Word, shares_qubit};

// Whether a term in `range` shares a qubit with p.
pub fn overlaps(words: &[u64], range: Range, p: Word) -> bool
    requires { (range.start ≤ range.end) × (word_lanes * range.end ≤ length words.now) }
    ensures { (numbers : List Float) → (2 * range.end ≤ length numbers) → result ≡ overlaps_over floats pauli (terms_of words.now numbers range) p }
{
    for i in range.start..range.end {
        if shares_qubit(word_at(words, i), p) {
            return true;
        }
    }
    false
}

// The sandwiches of a with each term in `range`.
fn put_sandwich_row(
    lanes: &mut [u64],
    sums: &mut [f64],
    room: usize,
    len: usize,
    at: usize,
    words: &[u64],
    numbers: &[f64],
    range: Range,
    a: Term,
    rate: f64,
    p: Word,
) -> Option<usize>
    requires { SumsRoom room len lanes.old sums.old × TermsRoom range words.now numbers.now }
    ensures { PutsAll room len (map (sandwich p rate (onto a)) (terms_of words.now numbers.now range)) lanes.old sums.old lanes.new sums.new result }
{
    let v = a.word;
    let left = pauli_mul(v, p);
    let mut count = len;
    for j in range.start..range.end {
        let b = term_at(words, numbers, j);
        let t = sandwich_term(a, left, b, rate);
        let w = t.word;
        let z = t.number;
        let added = put_at(lanes, sums, room, count, at, w, z);
        let Some(m) = added else {
            return None;
        };
        count = m;
    }
    Some(count)
}

// The sandwiches of each term in `range` with each.
fn put_sandwiches(
    lanes: &mut [u64],
    sums: &mut [f64],
    room: usize,
    len: usize,
    at: usize,
    words: &[u64],
    numbers: &[f64],
    range: Range,
    rate: f64,
    p: Word,
) -> Option<usize>
    requires { SumsRoom room len lanes.old sums.old × TermsRoom range words.now numbers.now }
    ensures { PutsAll room len (pairs_over floats pauli (sandwich p rate) (terms_of words.now numbers.now range) (terms_of words.now numbers.now range)) lanes.old sums.old lanes.new sums.new result }
{
    let mut count = len;
    for i in range.start..range.end {
        let a = term_at(words, numbers, i);
        let added = put_sandwich_row(
            lanes, sums, room, count, at, words, numbers, range, a, rate, p,
        );
        let Some(m) = added else {
            return None;
        };
        count = m;
    }
    Some(count)
}

// A term c of L†L: minus its number × rate × sign onto c·p, where phase is even.
fn put_dampen_term(
    lanes: &mut [u64],
    sums: &mut [f64],
    room: usize,
    len: usize,
    at: usize,
    c: Term,
    rate: f64,
    p: Word,
) -> Option<usize>
    requires { SumsRoom room len lanes.old sums.old }
    ensures { PutsAll room len (dampen p rate (onto c)) lanes.old sums.old lanes.new sums.new result }
{
    let v = c.word;
    let product = pauli_mul(v, p);
    let phase = product.phase;
    if phase % 2 == 1 {
        return Some(len);
    }
    let w = product.word;
    let z = mul(neg(c.number), real(rate));
    put_at(lanes, sums, room, len, at, w, mul(z, real(sign_of(phase))))
}

// The same for each term in `range`.
fn put_dampen(
    lanes: &mut [u64],
    sums: &mut [f64],
    room: usize,
    len: usize,
    at: usize,
    words: &[u64],
    numbers: &[f64],
    range: Range,
    rate: f64,
    p: Word,
) -> Option<usize>
    requires { SumsRoom room len lanes.old sums.old × TermsRoom range words.now numbers.now }
    ensures { PutsAll room len (gather_over floats pauli (dampen p rate) (terms_of words.now numbers.now range)) lanes.old sums.old lanes.new sums.new result }
{
    let mut count = len;
    for i in range.start..range.end {
        let c = term_at(words, numbers, i);
        let added = put_dampen_term(lanes, sums, room, count, at, c, rate, p);
        let Some(m) = added else {
            return None;
        };
        count = m;
    }
    Some(count)
}

// A general jump with its terms in `terms` and those of L†L in `product`, where one of its terms
// shares a qubit with p.
pub fn put_general(
    lanes: &mut [u64],
    sums: &mut [f64],
    room: usize,
    len: usize,
    at: usize,
    words: &[u64],
    numbers: &[f64],
    rate: f64,
    terms: Range,
    product: Range,
    p: Word,
) -> Option<usize>
    requires { SumsRoom room len lanes.old sums.old × TermsRoom terms words.now numbers.now × TermsRoom product words.now numbers.now }
    ensures { (t : ModelTables) → (t.t_words ≡ words.now) → (t.t_numbers ≡ numbers.now) → PutsAll room len (jump_adds p t (General rate terms product)) lanes.old sums.old lanes.new sums.new result }
{
    if !overlaps(words, terms, p) {
        return Some(len);
    }
    let added = put_sandwiches(lanes, sums, room, len, at, words, numbers, terms, rate, p);
    let Some(m) = added else {
        return None;
    };
    put_dampen(lanes, sums, room, m, at, words, numbers, product, rate, p)
}
