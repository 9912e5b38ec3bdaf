// SPDX-FileCopyrightText: 2026 The PPVM Authors
// SPDX-License-Identifier: Apache-2.0

// Testing a model that is lent: its counts, the lengths of its tables, then table by table the first
// place that fails.
ghost use Rattle.std.specs.Prelude.{◌≡◌, ◌+◌, ◌*◌, ◌<◌, ◌≤◌, leb, length};
ghost use Rattle.word.specs.Flat.{word_lanes};
ghost use Rattle.model.specs.Between.{model_tables, fails_real, real_fails, entry_fails, fails_term, term_fails, fails_in, fails_of, given_fails, any_fails};
ghost use Rattle.model.specs.Tested.{inside, bad_jump, test_model};
ghost use Rattle.model.specs.Fails.{fails_given};
ghost use Rattle.model.specs.declared.stored.Jump.TheVariants.{Pauli, General, Pair};
ghost use Rattle.lent.specs.Tests.{first_to};

use crate::stored::{JUMP_NUMBERS, Jump, Model, Range, jump_at};
use lent::sizes::smaller;
use number::scalar::{bounded, in_range};
use refusal::Refusal;
use word::flat::{WORD_LANES, word_at};
use word::word::{MAX_QUBITS, Word, reaches_beyond};

// The entries that the table of Hamiltonian terms and that of jumps and pairs may have.
pub const MAX_HAMILTONIAN: usize = 4096;

pub const MAX_JUMPS: usize = 4096;

// A Hamiltonian term: its word stays below qubit n, and its number is in range.
fn bad_real(w: Word, x: f64, n: usize) -> bool
    ensures { result ≡ fails_real w x n }
{
    if reaches_beyond(w, n) {
        return true;
    }
    !in_range(x)
}

// The first Hamiltonian term that fails, or their count.
fn test_hamiltonian(n: usize, count: usize, words: &[u64], coeffs: &[f64]) -> usize
    requires { (word_lanes * count ≤ length words.now) × (count ≤ length coeffs.now) }
    ensures { result ≡ first_to count (real_fails n words.now coeffs.now) }
{
    for i in 0..count {
        if bad_real(word_at(words, i), coeffs[i], n) {
            return i;
        }
    }
    count
}

// Whether a range lies inside a table of so many places.
fn inside_table(r: Range, places: usize) -> bool
    ensures { result ≡ inside places r }
{
    if r.end < r.start {
        return false;
    }
    r.end <= places
}

// Whether left × right factors find places from a first one on. Nothing is multiplied, so nothing
// overflows.
fn factors_fit(factors: usize, left: usize, right: usize, places: usize) -> bool
    ensures { result ≡ leb (factors + left * right) places }
{
    if places < factors {
        return false;
    }
    if right == 0 {
        return true;
    }
    left <= (places - factors) / right
}

fn bad_pauli(rate: f64, term: usize, places: usize) -> bool
    ensures { result ≡ bad_jump places (Pauli rate term) }
{
    if places <= term {
        return true;
    }
    !bounded(rate)
}

fn bad_general(rate: f64, terms: Range, product: Range, places: usize) -> bool
    ensures { result ≡ bad_jump places (General rate terms product) }
{
    if !inside_table(terms, places) {
        return true;
    }
    if !inside_table(product, places) {
        return true;
    }
    !in_range(rate)
}

fn bad_pair(left: Range, right: Range, factors: usize, product: Range, places: usize) -> bool
    ensures { result ≡ bad_jump places (Pair left right factors product) }
{
    if !inside_table(left, places) {
        return true;
    }
    if !inside_table(right, places) {
        return true;
    }
    if !inside_table(product, places) {
        return true;
    }
    !factors_fit(
        factors,
        left.end - left.start,
        right.end - right.start,
        places,
    )
}

// A jump or a pair: its ranges lie inside a terms table of so many places, its rate is in range.
fn bad_jump(jump: Jump, places: usize) -> bool
    ensures { result ≡ bad_jump places jump }
{
    match jump {
        Jump::Pauli { rate, term } => bad_pauli(rate, term, places),
        Jump::General {
            rate,
            terms,
            product,
        } => bad_general(rate, terms, product, places),
        Jump::Pair {
            left,
            right,
            factors,
            product,
        } => bad_pair(left, right, factors, product, places),
    }
}

// An entry of the table of jumps and pairs: of a kind that there is, and as its kind asks.
fn bad_entry(jumps: &[u64], rates: &[f64], j: usize, places: usize) -> bool
    requires { (8 * j + 8 ≤ length jumps.now) × (j < length rates.now) }
    ensures { result ≡ entry_fails places jumps.now rates.now j }
{
    if 2 < jumps[j * JUMP_NUMBERS] {
        return true;
    }
    bad_jump(jump_at(jumps, rates, j), places)
}

// The first entry that fails, or their count.
fn test_jumps(count: usize, jumps: &[u64], rates: &[f64], places: usize) -> usize
    requires { (8 * count ≤ length jumps.now) × (count ≤ length rates.now) }
    ensures { result ≡ first_to count (entry_fails places jumps.now rates.now) }
{
    for j in 0..count {
        if bad_entry(jumps, rates, j, places) {
            return j;
        }
    }
    count
}

// A term: its word stays below qubit n, and its numbers are not too large.
fn bad_term(w: Word, re: f64, im: f64, n: usize) -> bool
    ensures { result ≡ fails_term w re im n }
{
    if reaches_beyond(w, n) {
        return true;
    }
    if !bounded(re) {
        return true;
    }
    !bounded(im)
}

// The first term that fails this, or their count.
fn test_each(n: usize, terms: usize, words: &[u64], numbers: &[f64]) -> usize
    requires { (word_lanes * terms ≤ length words.now) × (2 * terms ≤ length numbers.now) }
    ensures { result ≡ first_to terms (term_fails n words.now numbers.now) }
{
    for i in 0..terms {
        if bad_term(word_at(words, i), numbers[i * 2], numbers[i * 2 + 1], n) {
            return i;
        }
    }
    terms
}

// A given term: its numbers are in range.
fn bad_given(re: f64, im: f64) -> bool
    ensures { result ≡ fails_given re im }
{
    if !in_range(re) {
        return true;
    }
    !in_range(im)
}

// The first term of a range whose numbers are not in range, or the count of all terms. A range that
// reaches beyond the table ends with it.
pub fn test_range(r: Range, numbers: &[f64], terms: usize) -> usize
    requires { 2 * terms ≤ length numbers.now }
    ensures { result ≡ first_to terms (fails_in r numbers.now) }
{
    let end = smaller(r.end, terms);
    for i in r.start..end {
        if bad_given(numbers[i * 2], numbers[i * 2 + 1]) {
            return i;
        }
    }
    terms
}

// The same for the one term of a Pauli jump.
fn test_pauli(rate: f64, term: usize, numbers: &[f64], terms: usize) -> usize
    requires { 2 * terms ≤ length numbers.now }
    ensures { result ≡ first_to terms (fails_of (Pauli rate term) numbers.now) }
{
    if terms <= term {
        return terms;
    }
    if bad_given(numbers[term * 2], numbers[term * 2 + 1]) {
        return term;
    }
    terms
}

// The same for the given terms of a jump or a pair.
fn test_jump(jump: Jump, numbers: &[f64], terms: usize) -> usize
    requires { 2 * terms ≤ length numbers.now }
    ensures { result ≡ first_to terms (fails_of jump numbers.now) }
{
    match jump {
        Jump::Pauli { rate, term } => test_pauli(rate, term, numbers, terms),
        Jump::General {
            rate: _,
            terms: op,
            product: _,
        } => test_range(op, numbers, terms),
        Jump::Pair {
            left,
            right,
            factors: _,
            product: _,
        } => smaller(
            test_range(left, numbers, terms),
            test_range(right, numbers, terms),
        ),
    }
}

// The first given term whose numbers are not in range, or the count of all terms. Each jump's places
// are visited once.
fn test_given(count: usize, jumps: &[u64], rates: &[f64], numbers: &[f64], terms: usize) -> usize
    requires { (8 * count ≤ length jumps.now) × (count ≤ length rates.now) × (2 * terms ≤ length numbers.now) }
    ensures { result ≡ first_to terms (given_fails count jumps.now rates.now numbers.now) }
{
    let mut first = terms;
    for j in 0..count {
        first = smaller(first, test_jump(jump_at(jumps, rates, j), numbers, terms));
    }
    first
}

// The first term that fails, or their count.
fn test_terms(
    n: usize,
    count: usize,
    jumps: &[u64],
    rates: &[f64],
    terms: usize,
    words: &[u64],
    numbers: &[f64],
) -> usize
    requires { (8 * count ≤ length jumps.now) × (count ≤ length rates.now) × (word_lanes * terms ≤ length words.now) × (2 * terms ≤ length numbers.now) }
    ensures { result ≡ first_to terms (any_fails n count jumps.now rates.now words.now numbers.now) }
{
    let each = test_each(n, terms, words, numbers);
    let given = test_given(count, jumps, rates, numbers, terms);
    smaller(each, given)
}

// Answers for a lent model by the first test that it fails.
pub fn test_model(
    m: Model,
    h_words: &[u64],
    h_coeffs: &[f64],
    jumps: &[u64],
    rates: &[f64],
    t_words: &[u64],
    t_numbers: &[f64],
) -> Result<(), Refusal>
    ensures { result ≡ test_model m (model_tables h_words.now h_coeffs.now jumps.now rates.now t_words.now t_numbers.now) }
{
    if MAX_QUBITS < m.qubits {
        return Err(Refusal::TooManyQubits {
            got: m.qubits,
            max: MAX_QUBITS,
        });
    }
    if MAX_HAMILTONIAN < m.hamiltonian {
        return Err(Refusal::CountAboveLimit {
            count: m.hamiltonian,
        });
    }
    if MAX_JUMPS < m.jumps {
        return Err(Refusal::CountAboveLimit { count: m.jumps });
    }
    if h_words.len() / WORD_LANES < m.hamiltonian {
        return Err(Refusal::LengthMismatch {
            needed: m.hamiltonian,
            given: h_words.len() / WORD_LANES,
        });
    }
    if h_coeffs.len() < m.hamiltonian {
        return Err(Refusal::LengthMismatch {
            needed: m.hamiltonian,
            given: h_coeffs.len(),
        });
    }
    if jumps.len() / JUMP_NUMBERS < m.jumps {
        return Err(Refusal::LengthMismatch {
            needed: m.jumps,
            given: jumps.len() / JUMP_NUMBERS,
        });
    }
    if rates.len() < m.jumps {
        return Err(Refusal::LengthMismatch {
            needed: m.jumps,
            given: rates.len(),
        });
    }
    if t_words.len() / WORD_LANES < m.terms {
        return Err(Refusal::LengthMismatch {
            needed: m.terms,
            given: t_words.len() / WORD_LANES,
        });
    }
    if t_numbers.len() / 2 < m.terms {
        return Err(Refusal::LengthMismatch {
            needed: m.terms,
            given: t_numbers.len() / 2,
        });
    }
    let real = test_hamiltonian(m.qubits, m.hamiltonian, h_words, h_coeffs);
    if real < m.hamiltonian {
        return Err(Refusal::NumberOutOfRange { index: real });
    }
    let entry = test_jumps(m.jumps, jumps, rates, m.terms);
    if entry < m.jumps {
        return Err(Refusal::NumberOutOfRange { index: entry });
    }
    let term = test_terms(m.qubits, m.jumps, jumps, rates, m.terms, t_words, t_numbers);
    if term < m.terms {
        return Err(Refusal::NumberOutOfRange { index: term });
    }
    Ok(())
}
