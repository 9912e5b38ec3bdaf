// SPDX-FileCopyrightText: 2026 The PPVM Authors
// SPDX-License-Identifier: Apache-2.0

// What leakage asks of what it is lent: the model, 8, 9, 11, 7.
ghost use Rattle.std.specs.Prelude.{◌≡◌, ◌≤◌, length};
ghost use Rattle.word.specs.Word.{max_qubits};
ghost use Rattle.model.specs.Between.{model_tables};
ghost use Rattle.lent.specs.Words.{max_words};
ghost use Rattle.leakage.specs.Leakages.{work_tests, leak_tests, basis_of, Work};

use action::words::ROW_LANES;
use lent::tests::{mismatch, where_any};
use lent::words::MAX_WORDS;
use limits::{Limits, check_limits, check_threshold};
use model::stored::Model;
use model::test::test_model;
use refusal::Refusal;
use truncate::checks::check_entries;
use word::flat::WORD_LANES;

// The tables whose lengths the input fixes.
fn check_work(
    n: usize,
    len: usize,
    count: usize,
    h_index: usize,
    j_index: usize,
    mask: usize,
    order: usize,
    heads: usize,
    nexts: usize,
) -> Result<(), Refusal>
    requires { (n ≤ max_qubits) × (len ≤ max_words) × (count ≤ max_words) }
    ensures { (w : Work) → (length w.h_index ≡ h_index) → (length w.j_index ≡ j_index) → (length w.mask ≡ mask) → (length w.order ≡ order) → (length w.heads ≡ heads) → (length w.nexts ≡ nexts) → result ≡ work_tests n len count w }
{
    let rows = where_any(len, ROW_LANES * n);
    let row = where_any(len, ROW_LANES);
    let slots = where_any(len, len + count);
    if h_index < rows {
        return mismatch(rows, h_index);
    }
    if j_index < rows {
        return mismatch(rows, j_index);
    }
    if mask < row {
        return mismatch(row, mask);
    }
    if order < len {
        return mismatch(len, order);
    }
    if heads < slots {
        return mismatch(slots, heads);
    }
    if nexts < slots {
        return mismatch(slots, nexts);
    }
    Ok(())
}

pub fn check_leakage(
    m: Model,
    h_words: &[u64],
    h_coeffs: &[f64],
    jumps: &[u64],
    rates: &[f64],
    t_words: &[u64],
    t_numbers: &[f64],
    words: &[u64],
    coeffs: &[f64],
    len: usize,
    protected: &[u64],
    limits: Limits,
    h_index: usize,
    j_index: usize,
    mask: usize,
    order: usize,
    heads: usize,
    nexts: usize,
) -> Result<(), Refusal>
    ensures { (w : Work) → (length w.h_index ≡ h_index) → (length w.j_index ≡ j_index) → (length w.mask ≡ mask) → (length w.order ≡ order) → (length w.heads ≡ heads) → (length w.nexts ≡ nexts) → result ≡ leak_tests m (model_tables h_words.now h_coeffs.now jumps.now rates.now t_words.now t_numbers.now) (basis_of words.now coeffs.now len protected.now) limits w }
{
    test_model(m, h_words, h_coeffs, jumps, rates, t_words, t_numbers)?;
    if MAX_WORDS < len {
        return Err(Refusal::CountAboveLimit { count: len });
    }
    let count = protected.len() / WORD_LANES;
    if MAX_WORDS < count {
        return Err(Refusal::CountAboveLimit { count });
    }
    check_limits(limits)?;
    let places = words.len() / WORD_LANES;
    if places < len {
        return mismatch(len, places);
    }
    if coeffs.len() < len {
        return mismatch(len, coeffs.len());
    }
    let lanes = count * WORD_LANES;
    if protected.len() != lanes {
        return mismatch(lanes, protected.len());
    }
    let n = m.qubits;
    check_work(n, len, count, h_index, j_index, mask, order, heads, nexts)?;
    check_entries(n, words, coeffs, len, protected)?;
    check_threshold(limits, len)
}
