// SPDX-FileCopyrightText: 2026 The PPVM Authors
// SPDX-License-Identifier: Apache-2.0

// What a step asks of what it is lent: the model, 8, 9, 11, 7, then 12.
ghost use Rattle.std.specs.Prelude.{◌≡◌, ◌*◌, ◌+◌, ◌≤◌, length};
ghost use Rattle.word.specs.Flat.{word_lanes, words as words_in};
ghost use Rattle.word.specs.Word.{max_qubits};
ghost use Rattle.model.specs.Between.{model_tables};
ghost use Rattle.lent.specs.Words.{max_words};
ghost use Rattle.generator.specs.Lent.{distinct};
ghost use Rattle.step_parts.specs.Lent.{given_tests, work_tests, number_tests, step_tests};
ghost use Rattle.step_parts.specs.Between.{Untouched};

use action::words::ROW_LANES;
use columns::repeat::lay_distinct;
use lent::tests::{mismatch, where_any};
use lent::words::MAX_WORDS;
use limits::{Limits, check_limits, check_threshold};
use model::stored::Model;
use model::test::test_model;
use number::scalar::is_finite;
use refusal::Refusal;
use truncate::checks::check_entries;
use word::flat::WORD_LANES;

// What is given: the model, 8, 9.
fn check_given(
    m: Model,
    h_words: &[u64],
    h_coeffs: &[f64],
    jumps: &[u64],
    rates: &[f64],
    t_words: &[u64],
    t_numbers: &[f64],
    words: &[u64],
    coeffs: &[f64],
    len: usize,
    protected: &[u64],
    limits: Limits,
) -> Result<(), Refusal>
    ensures { result ≡ given_tests m (model_tables h_words.now h_coeffs.now jumps.now rates.now t_words.now t_numbers.now) words.now coeffs.now len protected.now limits }
{
    test_model(m, h_words, h_coeffs, jumps, rates, t_words, t_numbers)?;
    if MAX_WORDS < len {
        return Err(Refusal::CountAboveLimit { count: len });
    }
    let count = protected.len() / WORD_LANES;
    if MAX_WORDS < count {
        return Err(Refusal::CountAboveLimit { count });
    }
    check_limits(limits)?;
    let places = words.len() / WORD_LANES;
    if places < len {
        return mismatch(len, places);
    }
    if coeffs.len() < len {
        return mismatch(len, coeffs.len());
    }
    let lanes = count * WORD_LANES;
    if protected.len() != lanes {
        return mismatch(lanes, protected.len());
    }
    Ok(())
}

// The tables whose lengths the input fixes: 9.
fn check_work(
    n: usize,
    len: usize,
    count: usize,
    h_index: usize,
    j_index: usize,
    mask: usize,
    order: usize,
    heads: usize,
    nexts: usize,
    place_order: usize,
    cand_sums: usize,
    list_values: usize,
    work_sums: usize,
    grown_words: usize,
    start: usize,
    evolved: usize,
) -> Result<(), Refusal>
    requires { (n ≤ max_qubits) × (len ≤ max_words) × (count ≤ max_words) }
    ensures { result ≡ work_tests n len count h_index j_index mask order heads nexts place_order cand_sums list_values work_sums grown_words start evolved }
{
    let rows = where_any(len, ROW_LANES * n);
    let row = where_any(len, ROW_LANES);
    let slots = where_any(len, len + count);
    let starts = where_any(len, len + 1);
    if h_index < rows {
        return mismatch(rows, h_index);
    }
    if j_index < rows {
        return mismatch(rows, j_index);
    }
    if mask < row {
        return mismatch(row, mask);
    }
    if order < len {
        return mismatch(len, order);
    }
    if heads < slots {
        return mismatch(slots, heads);
    }
    if nexts < slots {
        return mismatch(slots, nexts);
    }
    if place_order < starts {
        return mismatch(starts, place_order);
    }
    if cand_sums < len {
        return mismatch(len, cand_sums);
    }
    if list_values < len {
        return mismatch(len, list_values);
    }
    if work_sums < len {
        return mismatch(len, work_sums);
    }
    if grown_words / WORD_LANES < len {
        return mismatch(len, grown_words / WORD_LANES);
    }
    if start < len {
        return mismatch(len, start);
    }
    if evolved < len {
        return mismatch(len, evolved);
    }
    Ok(())
}

// Words and numbers: 11, 7.
fn check_numbers(
    n: usize,
    words: &[u64],
    coeffs: &[f64],
    len: usize,
    protected: &[u64],
    limits: Limits,
    dt: f64,
    drop_tol: f64,
) -> Result<(), Refusal>
    requires { (word_lanes * len ≤ length words.now) × (len ≤ length coeffs.now) }
    ensures { result ≡ number_tests n words.now coeffs.now len protected.now limits dt drop_tol }
{
    check_entries(n, words, coeffs, len, protected)?;
    if !is_finite(dt) {
        return Err(Refusal::NumberOutOfRange { index: len });
    }
    if !is_finite(drop_tol) {
        return Err(Refusal::NumberOutOfRange { index: len });
    }
    check_threshold(limits, len)
}

// A basis word that comes again: 12. Slots are laid in heads and nexts where none does.
fn check_distinct(
    basis: &[u64],
    len: usize,
    heads: &mut [u64],
    nexts: &mut [u64],
) -> Result<(), Refusal>
    requires { (length basis.now ≡ len * word_lanes) × (len ≤ length heads.old) × (len ≤ length nexts.old) }
    ensures { (result ≡ distinct (words_in basis.now)) × Untouched result heads.old nexts.old heads.new nexts.new }
{
    let first = lay_distinct(basis, heads, &mut nexts[..len]);
    if first < len {
        return Err(Refusal::RepeatedBasisWord { position: first });
    }
    Ok(())
}

// All tests, in their order.
pub fn check_step(
    m: Model,
    h_words: &[u64],
    h_coeffs: &[f64],
    jumps: &[u64],
    rates: &[f64],
    t_words: &[u64],
    t_numbers: &[f64],
    words: &[u64],
    coeffs: &[f64],
    len: usize,
    protected: &[u64],
    limits: Limits,
    dt: f64,
    drop_tol: f64,
    h_index: usize,
    j_index: usize,
    mask: usize,
    order: usize,
    heads: &mut [u64],
    nexts: &mut [u64],
    place_order: usize,
    cand_sums: usize,
    list_values: usize,
    work_sums: usize,
    grown_words: usize,
    start: usize,
    evolved: usize,
) -> Result<(), Refusal>
    ensures { (result ≡ step_tests m (model_tables h_words.now h_coeffs.now jumps.now rates.now t_words.now t_numbers.now) words.now coeffs.now len protected.now limits dt drop_tol h_index j_index mask order (length heads.old) (length nexts.old) place_order cand_sums list_values work_sums grown_words start evolved) × Untouched result heads.old nexts.old heads.new nexts.new }
{
    check_given(
        m, h_words, h_coeffs, jumps, rates, t_words, t_numbers, words, coeffs, len, protected,
        limits,
    )?;
    let n = m.qubits;
    check_work(
        n,
        len,
        protected.len() / WORD_LANES,
        h_index,
        j_index,
        mask,
        order,
        heads.len(),
        nexts.len(),
        place_order,
        cand_sums,
        list_values,
        work_sums,
        grown_words,
        start,
        evolved,
    )?;
    check_numbers(n, words, coeffs, len, protected, limits, dt, drop_tol)?;
    check_distinct(&words[..len * WORD_LANES], len, heads, nexts)
}
