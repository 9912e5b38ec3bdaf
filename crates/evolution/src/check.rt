// SPDX-FileCopyrightText: 2026 The PPVM Authors
// SPDX-License-Identifier: Apache-2.0

// What an evolution asks of what it is lent: the model, 8, 9, 11, 7, then 12, which is found as the slots of
// the basis are laid.
ghost use Rattle.std.specs.Prelude.{◌≡◌, ◌*◌, ◌≤◌, length, take};
ghost use Rattle.word.specs.Flat.{words as words_in, word_lanes};
ghost use Rattle.word.specs.Word.{max_qubits};
ghost use Rattle.model.specs.Between.{model_tables};
ghost use Rattle.lent.specs.Tests.{and_then};
ghost use Rattle.lent.specs.Words.{max_words};
ghost use Rattle.generator.specs.Lent.{distinct};
ghost use Rattle.evolution.specs.Lent.{basis_tests, work_tests, number_tests};
ghost use Rattle.evolution.specs.Between.{Checks, SlotsLeft};

use action::words::ROW_LANES;
use columns::repeat::lay_distinct;
use generator::check::check_inside;
use lent::numbers::first_not_finite;
use lent::tests::{mismatch, where_any};
use lent::words::MAX_WORDS;
use model::stored::Model;
use model::test::test_model;
use number::scalar::is_finite;
use refusal::Refusal;
use word::flat::WORD_LANES;

// What is given: the model, 8, 9.
fn check_basis(
    m: Model,
    h_words: &[u64],
    h_coeffs: &[f64],
    jumps: &[u64],
    rates: &[f64],
    t_words: &[u64],
    t_numbers: &[f64],
    words: &[u64],
    coeffs: &[f64],
    len: usize,
) -> Result<(), Refusal>
    ensures { result ≡ basis_tests m (model_tables h_words.now h_coeffs.now jumps.now rates.now t_words.now t_numbers.now) words.now coeffs.now len }
{
    test_model(m, h_words, h_coeffs, jumps, rates, t_words, t_numbers)?;
    if MAX_WORDS < len {
        return Err(Refusal::CountAboveLimit { count: len });
    }
    let places = words.len() / WORD_LANES;
    if places < len {
        return mismatch(len, places);
    }
    if coeffs.len() < len {
        return mismatch(len, coeffs.len());
    }
    Ok(())
}

// The tables whose lengths the input fixes: 9.
fn check_work(
    n: usize,
    len: usize,
    h_index: usize,
    j_index: usize,
    mask: usize,
    heads: usize,
    nexts: usize,
    offsets: usize,
    v: usize,
    b: usize,
    product: usize,
    out: usize,
) -> Result<(), Refusal>
    requires { (n ≤ max_qubits) × (len ≤ max_words) }
    ensures { result ≡ work_tests n len h_index j_index mask heads nexts offsets v b product out }
{
    let rows = where_any(len, ROW_LANES * n);
    let row = where_any(len, ROW_LANES);
    let starts = where_any(len, len + 1);
    if h_index < rows {
        return mismatch(rows, h_index);
    }
    if j_index < rows {
        return mismatch(rows, j_index);
    }
    if mask < row {
        return mismatch(row, mask);
    }
    if heads < len {
        return mismatch(len, heads);
    }
    if nexts < len {
        return mismatch(len, nexts);
    }
    if offsets < starts {
        return mismatch(starts, offsets);
    }
    if v < len {
        return mismatch(len, v);
    }
    if b < len {
        return mismatch(len, b);
    }
    if product < len {
        return mismatch(len, product);
    }
    if out < len {
        return mismatch(len, out);
    }
    Ok(())
}

// Words and numbers: 11, 7.
fn check_numbers(
    words: &[u64],
    coeffs: &[f64],
    len: usize,
    n: usize,
    dt: f64,
    drop_tol: f64,
) -> Result<(), Refusal>
    requires { (word_lanes * len ≤ length words.now) × (len ≤ length coeffs.now) }
    ensures { result ≡ number_tests len words.now n coeffs.now dt drop_tol }
{
    check_inside(words, len, n)?;
    let first = first_not_finite(coeffs, len);
    if first < len {
        return Err(Refusal::NumberOutOfRange { index: first });
    }
    if !is_finite(dt) {
        return Err(Refusal::NumberOutOfRange { index: len });
    }
    if !is_finite(drop_tol) {
        return Err(Refusal::NumberOutOfRange { index: len });
    }
    Ok(())
}

// A basis word that comes again: 12; else the slots are laid.
fn check_distinct(
    basis: &[u64],
    len: usize,
    heads: &mut [u64],
    nexts: &mut [u64],
) -> Result<(), Refusal>
    requires { (length basis.now ≡ len * word_lanes) × (len ≤ length heads.old) × (len ≤ length nexts.old) }
    ensures { (result ≡ distinct (words_in basis.now)) × SlotsLeft (words_in basis.now) len heads.old nexts.old result heads.new nexts.new }
{
    let first = lay_distinct(basis, heads, &mut nexts[..len]);
    if first < len {
        return Err(Refusal::RepeatedBasisWord { position: first });
    }
    Ok(())
}

// All tests, in their order.
pub fn check_evolution(
    m: Model,
    h_words: &[u64],
    h_coeffs: &[f64],
    jumps: &[u64],
    rates: &[f64],
    t_words: &[u64],
    t_numbers: &[f64],
    words: &[u64],
    coeffs: &[f64],
    len: usize,
    dt: f64,
    drop_tol: f64,
    h_index: usize,
    j_index: usize,
    mask: usize,
    heads: &mut [u64],
    nexts: &mut [u64],
    offsets: usize,
    v: usize,
    b: usize,
    product: usize,
    out: usize,
) -> Result<(), Refusal>
    ensures { Checks m (model_tables h_words.now h_coeffs.now jumps.now rates.now t_words.now t_numbers.now) words.now coeffs.now len dt drop_tol h_index j_index mask heads.old nexts.old offsets v b product out result heads.new nexts.new }
{
    check_basis(
        m, h_words, h_coeffs, jumps, rates, t_words, t_numbers, words, coeffs, len,
    )?;
    let n = m.qubits;
    check_work(
        n,
        len,
        h_index,
        j_index,
        mask,
        heads.len(),
        nexts.len(),
        offsets,
        v,
        b,
        product,
        out,
    )?;
    check_numbers(words, coeffs, len, n, dt, drop_tol)?;
    check_distinct(&words[..len * WORD_LANES], len, heads, nexts)
}
