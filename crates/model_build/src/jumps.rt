// SPDX-FileCopyrightText: 2026 The PPVM Authors
// SPDX-License-Identifier: Apache-2.0

// Jumps compiled through the work table: an operator's terms are read into it past the places of the
// sums, and its product is formed there, to be counted or stored.
ghost use Rattle.std.specs.Prelude.{◌≡◌, ◌≤◌, length};
ghost use Rattle.model_build.specs.Compiled.{compile_jump, term_count};
ghost use Rattle.model_build.specs.Work.{operator_in, is_pauli, WorkRoom, ReadRoom, TextsFit, operator_taken, JumpRoom, StoresJump};

use crate::store::{count_kept, store_kept, store_terms};
use crate::take::take_word;
use model::stored::{Range, lay_entry};
use model::term::term_at;
use operator_product::product::{SUM_PLACES, precompute_adag_b};
use sums::numbers::{complex_at, set_complex};
use word::flat::set_word;

// Reads the terms of an operator into the work table: a text and two numbers for each.
pub fn read_operator(
    texts: &[u8],
    lengths: &[u64],
    numbers: &[f64],
    n_qubits: usize,
    words: &mut [u64],
    sums: &mut [f64],
)
    requires { TextsFit lengths.now texts.now numbers.now × ReadRoom (length lengths.now) words.old sums.old }
    ensures { operator_in (length lengths.now) words.new sums.new ≡ operator_taken n_qubits lengths.now texts.now numbers.now }
{
    let mut at = 0;
    for (i, length) in lengths.iter().enumerate() {
        let k = *length as usize;
        let w = take_word(&texts[at..at + k], n_qubits);
        let z = complex_at(numbers, i);
        set_word(words, SUM_PLACES + i, w);
        set_complex(sums, SUM_PLACES + i, z);
        at += k;
    }
}

// Whether the operator of k terms is one word with a real number.
fn is_pauli(words: &[u64], sums: &[f64], k: usize) -> bool
    requires { WorkRoom k words.now sums.now }
    ensures { result ≡ is_pauli (operator_in k words.now sums.now) }
{
    if k != 1 {
        return false;
    }
    let t = term_at(words, sums, SUM_PLACES);
    let z = t.number;
    z.im == 0.0
}

// How many terms are stored for the operator of k terms.
pub fn count_operator(words: &mut [u64], sums: &mut [f64], k: usize) -> usize
    requires { WorkRoom k words.old sums.old }
    ensures { (result ≡ term_count (operator_in k words.old sums.old)) × (result ≤ 272) }
{
    if is_pauli(words, sums, k) {
        return 1;
    }
    let own = Range {
        start: SUM_PLACES,
        end: SUM_PLACES + k,
    };
    let count = precompute_adag_b(words, sums, own, own);
    k + count_kept(words, sums, count)
}

// Stores the jump of this rate whose operator has k terms, as entry j with terms at `at` and after
// it: the place after the last.
pub fn store_operator(
    words: &mut [u64],
    sums: &mut [f64],
    k: usize,
    rate: f64,
    j: usize,
    at: usize,
    jumps: &mut [u64],
    rates: &mut [f64],
    t_words: &mut [u64],
    t_numbers: &mut [f64],
) -> usize
    requires { WorkRoom k words.old sums.old × JumpRoom (compile_jump (record { rate = rate; op = operator_in k words.old sums.old })) j at jumps.old rates.old t_words.old t_numbers.old }
    ensures { StoresJump (compile_jump (record { rate = rate; op = operator_in k words.old sums.old })) j at jumps.old rates.old t_words.old t_numbers.old result jumps.new rates.new t_words.new t_numbers.new }
{
    let end = at + k;
    let none = Range { start: 0, end: 0 };
    let terms = Range { start: at, end };
    store_terms(
        words,
        sums,
        SUM_PLACES,
        SUM_PLACES + k,
        t_words,
        t_numbers,
        at,
    );
    if is_pauli(words, sums, k) {
        let t = term_at(words, sums, SUM_PLACES);
        let z = t.number;
        rates[j] = rate * z.re * z.re;
        lay_entry(jumps, j, 0, terms, none, 0, none);
        return end;
    }
    rates[j] = rate;
    let own = Range {
        start: SUM_PLACES,
        end: SUM_PLACES + k,
    };
    let count = precompute_adag_b(words, sums, own, own);
    let last = store_kept(words, sums, count, t_words, t_numbers, end);
    let product = Range {
        start: end,
        end: last,
    };
    lay_entry(jumps, j, 1, terms, none, 0, product);
    last
}
