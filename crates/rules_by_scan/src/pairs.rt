// SPDX-FileCopyrightText: 2026 The PPVM Authors
// SPDX-License-Identifier: Apache-2.0

// What the pairs of a model that passed its test add for a word p, put to the sums of a lent table pair
// by pair.
ghost use Rattle.std.specs.Prelude.{◌≡◌, ◌&&◌, false, ◌++◌, map, ℕ, ◌+◌, ◌*◌, ◌≤◌, ◌<◌, eqb, length};
ghost use Rattle.word.specs.Flat.{word_lanes};
ghost use Rattle.number.specs.Floats.{floats};
ghost use Rattle.gksl.specs.Rules.{gather_over};
ghost use Rattle.gksl.specs.Words.{pauli};
ghost use Rattle.model.specs.Terms.{terms_in, terms_of};
ghost use Rattle.model.specs.Stored.{ModelTables, range, jump_at};
ghost use Rattle.model.specs.Tested.{width, bad_jump};
ghost use Rattle.model.specs.declared.stored.Jump.TheVariants.{Pair};
ghost use Rattle.rule_terms.specs.Adds.{folded, doubled, each_factor, diagonal, both_sides, pair_adds, gather_jumps};
ghost use Rattle.rule_terms.specs.Sums.{SumsRoom, TermsRoom, PutsAll};
ghost use Rattle.word.specs.Count.{up_to};

use crate::general::overlaps;
use crate::pair::{put_both, put_diagonal, put_factors, put_one};
use model::stored::{Jump, Range, jump_at};
use word::word::Word;

// A diagonal pair: its factors, then the words of its product.
fn put_folded(
    lanes: &mut [u64],
    sums: &mut [f64],
    room: usize,
    len: usize,
    t_words: &[u64],
    t_numbers: &[f64],
    left: Range,
    right: Range,
    factors: usize,
    product: Range,
    p: Word,
) -> Option<usize>
    requires { SumsRoom room len lanes.old sums.old × TermsRoom left t_words.now t_numbers.now × (right.start ≤ right.end) × TermsRoom (range factors (factors + width left * width right)) t_words.now t_numbers.now × TermsRoom product t_words.now t_numbers.now }
    ensures { PutsAll room len (each_factor p (folded p) (width right) (terms_of t_words.now t_numbers.now left) (terms_in t_words.now t_numbers.now factors (factors + width left * width right)) ++ gather_over floats pauli (diagonal p) (terms_of t_words.now t_numbers.now product)) lanes.old sums.old lanes.new sums.new result }
{
    let added = put_factors(
        lanes, sums, room, len, t_words, t_numbers, left, right, factors, p, false,
    );
    let Some(m) = added else {
        return None;
    };
    put_diagonal(lanes, sums, room, m, t_words, t_numbers, product, p)
}

// A pair of two ranges with p on both sides: its factors, then the words of its product.
fn put_doubled(
    lanes: &mut [u64],
    sums: &mut [f64],
    room: usize,
    len: usize,
    t_words: &[u64],
    t_numbers: &[f64],
    left: Range,
    right: Range,
    factors: usize,
    product: Range,
    p: Word,
) -> Option<usize>
    requires { SumsRoom room len lanes.old sums.old × TermsRoom left t_words.now t_numbers.now × (right.start ≤ right.end) × TermsRoom (range factors (factors + width left * width right)) t_words.now t_numbers.now × TermsRoom product t_words.now t_numbers.now }
    ensures { PutsAll room len (each_factor p (doubled p) (width right) (terms_of t_words.now t_numbers.now left) (terms_in t_words.now t_numbers.now factors (factors + width left * width right)) ++ gather_over floats pauli (both_sides p) (terms_of t_words.now t_numbers.now product)) lanes.old sums.old lanes.new sums.new result }
{
    let added = put_factors(
        lanes, sums, room, len, t_words, t_numbers, left, right, factors, p, true,
    );
    let Some(m) = added else {
        return None;
    };
    put_both(lanes, sums, room, m, t_words, t_numbers, product, p)
}

// Whether two ranges are one.
fn same_range(a: Range, b: Range) -> bool
    ensures { result ≡ (eqb a.start b.start && eqb a.end b.end) }
{
    if a.start == b.start {
        return a.end == b.end;
    }
    false
}

// A pair with its terms in `left` and `right`, its factors from place `factors` on, and the words of
// its product in `product`; diagonal where its two ranges are one.
pub fn put_pair(
    lanes: &mut [u64],
    sums: &mut [f64],
    room: usize,
    len: usize,
    t_words: &[u64],
    t_numbers: &[f64],
    left: Range,
    right: Range,
    factors: usize,
    product: Range,
    p: Word,
) -> Option<usize>
    requires { SumsRoom room len lanes.old sums.old × TermsRoom left t_words.now t_numbers.now × TermsRoom right t_words.now t_numbers.now × TermsRoom (range factors (factors + width left * width right)) t_words.now t_numbers.now × TermsRoom product t_words.now t_numbers.now }
    ensures { (t : ModelTables) → (t.t_words ≡ t_words.now) → (t.t_numbers ≡ t_numbers.now) → PutsAll room len (pair_adds p t (Pair left right factors product)) lanes.old sums.old lanes.new sums.new result }
{
    let on_left = overlaps(t_words, left, p);
    if same_range(left, right) {
        if on_left {
            return put_folded(
                lanes, sums, room, len, t_words, t_numbers, left, right, factors, product, p,
            );
        }
        return Some(len);
    }
    let on_right = overlaps(t_words, right, p);
    if on_left {
        if on_right {
            return put_doubled(
                lanes, sums, room, len, t_words, t_numbers, left, right, factors, product, p,
            );
        }
        return put_one(
            lanes, sums, room, len, t_words, t_numbers, product, p, false,
        );
    }
    if on_right {
        return put_one(lanes, sums, room, len, t_words, t_numbers, product, p, true);
    }
    Some(len)
}

// One entry whose ranges lie inside a terms table of so many places. A jump adds nothing here.
pub fn put_pair_entry(
    lanes: &mut [u64],
    sums: &mut [f64],
    room: usize,
    len: usize,
    jump: Jump,
    t_words: &[u64],
    t_numbers: &[f64],
    places: usize,
    p: Word,
) -> Option<usize>
    requires { SumsRoom room len lanes.old sums.old × (bad_jump places jump ≡ false) × (word_lanes * places ≤ length t_words.now) × (2 * places ≤ length t_numbers.now) }
    ensures { (t : ModelTables) → (t.t_words ≡ t_words.now) → (t.t_numbers ≡ t_numbers.now) → PutsAll room len (pair_adds p t jump) lanes.old sums.old lanes.new sums.new result }
{
    match jump {
        Jump::Pauli { rate: _, term: _ } => Some(len),
        Jump::General {
            rate: _,
            terms: _,
            product: _,
        } => Some(len),
        Jump::Pair {
            left,
            right,
            factors,
            product,
        } => put_pair(
            lanes, sums, room, len, t_words, t_numbers, left, right, factors, product, p,
        ),
    }
}

// The pairs among the entries of the table of jumps and pairs.
pub fn put_pairs(
    lanes: &mut [u64],
    sums: &mut [f64],
    room: usize,
    len: usize,
    count: usize,
    jumps: &[u64],
    rates: &[f64],
    t_words: &[u64],
    t_numbers: &[f64],
    places: usize,
    p: Word,
) -> Option<usize>
    requires { SumsRoom room len lanes.old sums.old × (8 * count ≤ length jumps.now) × (count ≤ length rates.now) × (word_lanes * places ≤ length t_words.now) × (2 * places ≤ length t_numbers.now) × ((j : ℕ) → j < count → bad_jump places (jump_at jumps.now rates.now j) ≡ false) }
    ensures { (t : ModelTables) → (t.t_words ≡ t_words.now) → (t.t_numbers ≡ t_numbers.now) → PutsAll room len (gather_jumps (pair_adds p t) (map (jump_at jumps.now rates.now) (up_to 0 count))) lanes.old sums.old lanes.new sums.new result }
{
    let mut held = len;
    for j in 0..count {
        let jump = jump_at(jumps, rates, j);
        let added = put_pair_entry(lanes, sums, room, held, jump, t_words, t_numbers, places, p);
        let Some(m) = added else {
            return None;
        };
        held = m;
    }
    Some(held)
}
