// SPDX-FileCopyrightText: 2026 The PPVM Authors
// SPDX-License-Identifier: Apache-2.0

// All tests of what a model is built from, in their order: counts, lengths, the Hamiltonian's items,
// the jumps. Nothing is changed.
ghost use Rattle.std.specs.Prelude.{◌≡◌, List, ℕ, Float};
ghost use Rattle.model_build.specs.Checked.{given_answer};

use crate::items::{check_hamiltonian, check_jumps, sum_of};
use crate::lengths::lengths_agree;
use model::test::{MAX_HAMILTONIAN, MAX_JUMPS};
use refusal::Refusal;
use word::word::MAX_QUBITS;

pub fn check_given(
    texts: &[u8],
    lengths: &[u64],
    h_numbers: &[f64],
    rates: &[f64],
    counts: &[u64],
    numbers: &[f64],
    n_qubits: usize,
    h_words: &[u64],
    h_coeffs: &[f64],
    jumps: &[u64],
    rate_places: &[f64],
    work_words: &[u64],
    work_numbers: &[f64],
) -> Result<(), Refusal>
    ensures { (tWords : List ℕ) → (tNumbers : List Float) → result ≡ given_answer n_qubits (record { texts = texts.entry.now; lengths = lengths.now; h_numbers = h_numbers.now; rates = rates.now; counts = counts.now; numbers = numbers.now }) (record { h_words = h_words.now; h_coeffs = h_coeffs.now; jumps = jumps.now; rates = rate_places.now; t_words = tWords; t_numbers = tNumbers }) work_words.now work_numbers.now }
{
    if MAX_QUBITS < n_qubits {
        return Err(Refusal::TooManyQubits {
            got: n_qubits,
            max: MAX_QUBITS,
        });
    }
    let h = h_numbers.len();
    if MAX_HAMILTONIAN < h {
        return Err(Refusal::CountAboveLimit { count: h });
    }
    if MAX_JUMPS < rates.len() {
        return Err(Refusal::CountAboveLimit { count: rates.len() });
    }
    lengths_agree(
        texts,
        lengths,
        h_numbers,
        rates,
        counts,
        numbers,
        h_words,
        h_coeffs,
        jumps,
        rate_places,
        work_words,
        work_numbers,
    )?;
    let own = &lengths[0..h];
    check_hamiltonian(texts, own, h_numbers, n_qubits)?;
    check_jumps(
        &texts[sum_of(own)..],
        &lengths[h..],
        rates,
        counts,
        numbers,
        n_qubits,
    )
}
