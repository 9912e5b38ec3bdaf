// SPDX-FileCopyrightText: 2026 The PPVM Authors
// SPDX-License-Identifier: Apache-2.0

// A lent list of words beside a lent model and its index: the model, 8, 9, 11.
ghost use Rattle.std.specs.Prelude.{◌≡◌, ◌*◌};
ghost use Rattle.model.specs.Between.{model_tables};
ghost use Rattle.action.specs.Counts.{words_tests};

use lent::tests::{mismatch, where_any};
use lent::words::{MAX_WORDS, first_outside};
use model::stored::Model;
use model::test::test_model;
use refusal::Refusal;
use word::flat::WORD_LANES;

// The lanes of an index for each qubit, and of a mask.
pub const ROW_LANES: usize = 64;

pub fn check_words(
    m: Model,
    h_words: &[u64],
    h_coeffs: &[f64],
    jumps: &[u64],
    rates: &[f64],
    t_words: &[u64],
    t_numbers: &[f64],
    words: &[u64],
    h_index: usize,
    j_index: usize,
    mask: usize,
) -> Result<(), Refusal>
    ensures { result ≡ words_tests m (model_tables h_words.now h_coeffs.now jumps.now rates.now t_words.now t_numbers.now) words.now h_index j_index mask }
{
    test_model(m, h_words, h_coeffs, jumps, rates, t_words, t_numbers)?;
    let count = words.len() / WORD_LANES;
    if MAX_WORDS < count {
        return Err(Refusal::CountAboveLimit { count });
    }
    if words.len() != count * WORD_LANES {
        return mismatch(count * WORD_LANES, words.len());
    }
    let rows = where_any(count, ROW_LANES * m.qubits);
    let row = where_any(count, ROW_LANES);
    if h_index < rows {
        return mismatch(rows, h_index);
    }
    if j_index < rows {
        return mismatch(rows, j_index);
    }
    if mask < row {
        return mismatch(row, mask);
    }
    let n = m.qubits;
    let first = first_outside(words, count, n);
    if first < count {
        return Err(Refusal::WordOutsideRegister { position: first });
    }
    Ok(())
}
