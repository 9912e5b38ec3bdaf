// SPDX-FileCopyrightText: 2026 The PPVM Authors
// SPDX-License-Identifier: Apache-2.0

// What norm and degree ask of what they are lent: the model, 8, 9, 11; then 7 for the numbers of a
// degree.
ghost use Rattle.std.specs.Prelude.{◌≡◌};
ghost use Rattle.model.specs.Between.{model_tables};
ghost use Rattle.lent.specs.Tests.{and_then};
ghost use Rattle.norm.specs.Norms.{norm_tests, finite_tests};

use action::words::ROW_LANES;
use lent::tests::{mismatch, where_any};
use lent::words::{MAX_WORDS, first_outside};
use model::stored::Model;
use model::test::test_model;
use number::scalar::is_finite;
use refusal::Refusal;
use word::flat::WORD_LANES;

pub fn check_norm(
    m: Model,
    h_words: &[u64],
    h_coeffs: &[f64],
    jumps: &[u64],
    rates: &[f64],
    t_words: &[u64],
    t_numbers: &[f64],
    words: &[u64],
    len: usize,
    h_index: usize,
    j_index: usize,
    mask: usize,
    heads: usize,
    nexts: usize,
    raws: usize,
    diags: usize,
) -> Result<(), Refusal>
    ensures { result ≡ norm_tests m (model_tables h_words.now h_coeffs.now jumps.now rates.now t_words.now t_numbers.now) words.now len h_index j_index mask heads nexts raws diags }
{
    test_model(m, h_words, h_coeffs, jumps, rates, t_words, t_numbers)?;
    if MAX_WORDS < len {
        return Err(Refusal::CountAboveLimit { count: len });
    }
    let places = words.len() / WORD_LANES;
    if places < len {
        return mismatch(len, places);
    }
    let rows = where_any(len, ROW_LANES * m.qubits);
    let row = where_any(len, ROW_LANES);
    if h_index < rows {
        return mismatch(rows, h_index);
    }
    if j_index < rows {
        return mismatch(rows, j_index);
    }
    if mask < row {
        return mismatch(row, mask);
    }
    if heads < len {
        return mismatch(len, heads);
    }
    if nexts < len {
        return mismatch(len, nexts);
    }
    if raws < len {
        return mismatch(len, raws);
    }
    if diags < len {
        return mismatch(len, diags);
    }
    let first = first_outside(words, len, m.qubits);
    if first < len {
        return Err(Refusal::WordOutsideRegister { position: first });
    }
    Ok(())
}

fn check_finite(dt: f64, drop_tol: f64) -> Result<(), Refusal>
    ensures { result ≡ finite_tests dt drop_tol }
{
    if !is_finite(dt) {
        return Err(Refusal::NumberOutOfRange { index: 0 });
    }
    if !is_finite(drop_tol) {
        return Err(Refusal::NumberOutOfRange { index: 0 });
    }
    Ok(())
}

pub fn check_degree(
    m: Model,
    h_words: &[u64],
    h_coeffs: &[f64],
    jumps: &[u64],
    rates: &[f64],
    t_words: &[u64],
    t_numbers: &[f64],
    words: &[u64],
    len: usize,
    dt: f64,
    drop_tol: f64,
    h_index: usize,
    j_index: usize,
    mask: usize,
    heads: usize,
    nexts: usize,
    raws: usize,
    diags: usize,
) -> Result<(), Refusal>
    ensures { result ≡ and_then (norm_tests m (model_tables h_words.now h_coeffs.now jumps.now rates.now t_words.now t_numbers.now) words.now len h_index j_index mask heads nexts raws diags) (finite_tests dt drop_tol) }
{
    check_norm(
        m, h_words, h_coeffs, jumps, rates, t_words, t_numbers, words, len, h_index, j_index, mask,
        heads, nexts, raws, diags,
    )?;
    check_finite(dt, drop_tol)
}
