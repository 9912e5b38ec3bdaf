// SPDX-FileCopyrightText: 2026 The PPVM Authors
// SPDX-License-Identifier: Apache-2.0

// What the action on one position adds to candidates.
ghost use Rattle.std.specs.Prelude.{◌≡◌, ◌++◌, ◌*◌, ◌≤◌, length};
ghost use Rattle.word.specs.Flat.{words as words_in, word_lanes};
ghost use Rattle.sums.specs.Sums as Terms;
ghost use Rattle.candidates.specs.Tables.{candidate_rows, put_rows};
ghost use Rattle.candidates.specs.Between.{in_word_order, Standing, Puts};
ghost use Rattle.slots.specs.Between.{Slotted};
ghost use Rattle.action.specs.Acts.{listed};
ghost use Rattle.passes.specs.Leaks.{outside, leaked};

use candidates::put::put_candidate;
use model::term::term_at;
use number::scalar::is_zero;
use slots::has_word_in_both;
use word::word::Word;

// Whether w is neither in the basis nor protected; the slots are those of both lists, one behind the other.
fn is_outside(basis: &[u64], heads: &[u64], nexts: &[u64], protected: &[u64], w: Word) -> bool
    requires { Slotted (words_in basis.now ++ words_in protected.now) heads.now nexts.now }
    ensures { result ≡ outside (words_in basis.now) (words_in protected.now) w }
{
    let inside = has_word_in_both(basis, protected, heads, nexts, w);
    !inside
}

// Puts c × term to the n candidates that stand, for each of the first `touched` sums that is listed and whose
// word is outside; order and work are the candidates' slots.
pub fn put_terms(
    sum_words: &[u64],
    term_sums: &[f64],
    touched: usize,
    c: f64,
    basis: &[u64],
    heads: &[u64],
    nexts: &[u64],
    protected: &[u64],
    words: &mut [u64],
    sums: &mut [f64],
    room: usize,
    n: usize,
    order: &mut [u64],
    work: &mut [u64],
) -> Option<usize>
    requires { (word_lanes * touched ≤ length sum_words.now) × (2 * touched ≤ length term_sums.now) × Slotted (words_in basis.now ++ words_in protected.now) heads.now nexts.now × Standing room n words.old sums.old order.old work.old }
    ensures { Puts room (put_rows (leaked (outside (words_in basis.now) (words_in protected.now)) c (listed (Terms.sum_rows touched sum_words.now term_sums.now))) (in_word_order (candidate_rows n words.old sums.old))) words.new sums.new order.new work.new result }
{
    let mut held = n;
    for i in 0..touched {
        let t = term_at(sum_words, term_sums, i);
        let x = t.number.re;
        if is_zero(x) {
            continue;
        }
        let w = t.word;
        if is_outside(basis, heads, nexts, protected, w) {
            let added = put_candidate(words, sums, order, work, held, room, w, c * x);
            let Some(stand) = added else {
                return None;
            };
            held = stand;
        }
    }
    Some(held)
}
