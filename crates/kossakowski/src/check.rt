// SPDX-FileCopyrightText: 2026 The PPVM Authors
// SPDX-License-Identifier: Apache-2.0

// All tests of a matrix that is added to a model, in their order: the model, counts, lengths, K, the
// operators, the count of jumps and pairs. Nothing is changed.
ghost use Rattle.std.specs.Prelude.{◌≡◌};
ghost use Rattle.k_matrix.specs.Work.{matrix_answer};

use crate::operators::check_operators;
use k_matrix::lengths::lengths_agree;
use k_matrix::matrix::{count_pairs, first_apart, largest_square};
use model::stored::{Model, Range};
use model::test::{MAX_JUMPS, test_model, test_range};
use refusal::Refusal;

// The operators that a matrix may have.
pub const MAX_OPERATORS: usize = 64;

pub fn check_matrix(
    m: Model,
    texts: &[u8],
    lengths: &[u64],
    counts: &[u64],
    numbers: &[f64],
    k: &[f64],
    h_words: &[u64],
    h_coeffs: &[f64],
    jumps: &[u64],
    rates: &[f64],
    t_words: &[u64],
    t_numbers: &[f64],
    work_words: &[u64],
    work_numbers: &[f64],
) -> Result<(), Refusal>
    ensures { result ≡ matrix_answer m (record { texts = texts.entry.now; lengths = lengths.now; counts = counts.now; numbers = numbers.now; k = k.now }) (record { h_words = h_words.now; h_coeffs = h_coeffs.now; jumps = jumps.now; rates = rates.now; t_words = t_words.now; t_numbers = t_numbers.now }) work_words.now work_numbers.now }
{
    test_model(m, h_words, h_coeffs, jumps, rates, t_words, t_numbers)?;
    let ops = counts.len();
    if MAX_OPERATORS < ops {
        return Err(Refusal::CountAboveLimit { count: ops });
    }
    lengths_agree(
        m,
        texts,
        lengths,
        counts,
        numbers,
        k,
        jumps,
        rates,
        work_words,
        work_numbers,
    )?;
    let places = ops * ops;
    let outside = test_range(
        Range {
            start: 0,
            end: places,
        },
        k,
        places,
    );
    if outside < places {
        return Err(Refusal::NumberOutOfRange { index: outside });
    }
    let largest = largest_square(k);
    let apart = first_apart(k, ops, largest);
    if apart < places {
        return Err(Refusal::KMatrixNotHermitian {
            n: apart / ops,
            m: apart % ops,
        });
    }
    check_operators(texts, lengths, counts, numbers, m.qubits)?;
    let count = m.jumps + count_pairs(k, ops, largest);
    if MAX_JUMPS < count {
        return Err(Refusal::CountAboveLimit { count });
    }
    Ok(())
}
