// SPDX-FileCopyrightText: 2026 The PPVM Authors
// SPDX-License-Identifier: Apache-2.0

// What both calls ask of what they are lent: the model, 8, 9, then 11. A word that comes again (12) is
// found when the slots are laid.
ghost use Rattle.std.specs.Prelude.{◌≡◌, suc, ◌*◌, ◌≤◌, length};
ghost use Rattle.word.specs.Flat.{word_lanes};
ghost use Rattle.model.specs.Between.{model_tables};
ghost use Rattle.lent.specs.Tests.{lent, and_then};
ghost use Rattle.lent.specs.Words.{inside_to};
ghost use Rattle.generator.specs.Lent.{table_tests};

use action::words::ROW_LANES;
use lent::tests::{mismatch, where_any};
use lent::words::{MAX_WORDS, first_outside};
use model::stored::Model;
use model::test::test_model;
use refusal::Refusal;
use word::flat::WORD_LANES;

fn check_tables(
    m: Model,
    h_words: &[u64],
    h_coeffs: &[f64],
    jumps: &[u64],
    rates: &[f64],
    t_words: &[u64],
    t_numbers: &[f64],
    words: &[u64],
    len: usize,
    h_index: usize,
    j_index: usize,
    mask: usize,
    heads: usize,
    nexts: usize,
) -> Result<(), Refusal>
    ensures { result ≡ table_tests m (model_tables h_words.now h_coeffs.now jumps.now rates.now t_words.now t_numbers.now) words.now len h_index j_index mask heads nexts }
{
    test_model(m, h_words, h_coeffs, jumps, rates, t_words, t_numbers)?;
    if MAX_WORDS < len {
        return Err(Refusal::CountAboveLimit { count: len });
    }
    let places = words.len() / WORD_LANES;
    if places < len {
        return mismatch(len, places);
    }
    let rows = where_any(len, ROW_LANES * m.qubits);
    let row = where_any(len, ROW_LANES);
    if h_index < rows {
        return mismatch(rows, h_index);
    }
    if j_index < rows {
        return mismatch(rows, j_index);
    }
    if mask < row {
        return mismatch(row, mask);
    }
    if heads < len {
        return mismatch(len, heads);
    }
    if nexts < len {
        return mismatch(len, nexts);
    }
    Ok(())
}

pub fn check_inside(words: &[u64], len: usize, n: usize) -> Result<(), Refusal>
    requires { word_lanes * len ≤ length words.now }
    ensures { result ≡ inside_to len words.now n (Ok tt) }
{
    let first = first_outside(words, len, n);
    if first < len {
        return Err(Refusal::WordOutsideRegister { position: first });
    }
    Ok(())
}

pub fn check_generator(
    m: Model,
    h_words: &[u64],
    h_coeffs: &[f64],
    jumps: &[u64],
    rates: &[f64],
    t_words: &[u64],
    t_numbers: &[f64],
    words: &[u64],
    len: usize,
    h_index: usize,
    j_index: usize,
    mask: usize,
    heads: usize,
    nexts: usize,
) -> Result<(), Refusal>
    ensures { result ≡ and_then (table_tests m (model_tables h_words.now h_coeffs.now jumps.now rates.now t_words.now t_numbers.now) words.now len h_index j_index mask heads nexts) (inside_to len words.now m.qubits (Ok tt)) }
{
    check_tables(
        m, h_words, h_coeffs, jumps, rates, t_words, t_numbers, words, len, h_index, j_index, mask,
        heads, nexts,
    )?;
    check_inside(words, len, m.qubits)
}

// The same for a matrix by rows, which has an offset for each row and one more.
pub fn check_csr(
    m: Model,
    h_words: &[u64],
    h_coeffs: &[f64],
    jumps: &[u64],
    rates: &[f64],
    t_words: &[u64],
    t_numbers: &[f64],
    words: &[u64],
    len: usize,
    h_index: usize,
    j_index: usize,
    mask: usize,
    heads: usize,
    nexts: usize,
    offsets: usize,
) -> Result<(), Refusal>
    ensures { result ≡ and_then (table_tests m (model_tables h_words.now h_coeffs.now jumps.now rates.now t_words.now t_numbers.now) words.now len h_index j_index mask heads nexts) (lent (suc len) offsets (inside_to len words.now m.qubits (Ok tt))) }
{
    check_tables(
        m, h_words, h_coeffs, jumps, rates, t_words, t_numbers, words, len, h_index, j_index, mask,
        heads, nexts,
    )?;
    if offsets <= len {
        return mismatch(len + 1, offsets);
    }
    check_inside(words, len, m.qubits)
}
