// SPDX-FileCopyrightText: 2026 The PPVM Authors
// SPDX-License-Identifier: Apache-2.0

// Models: built in lent tables, tested where one is lent, and the lengths that are enough.
ghost use Rattle.std.specs.Prelude.{◌≡◌};
ghost use Rattle.refusal.specs.Cause.{answer_status};
ghost use Rattle.model_build.specs.Built.{build};
ghost use Rattle.model.specs.Tested.{test_model};
ghost use Rattle.k_matrix.specs.Added.{add};
ghost use Rattle.pebblelinen.specs.Models.{Leaves, model_sizes, matrix_sizes};

use model::stored::Model;
use pebblelinen::models::{BuiltModel, Sizes};
use refusal::Status;

#[unsafe(no_mangle)]
pub extern "C" fn pebblelinen_build_model(
    texts: &[u8],
    lengths: &[u64],
    h_numbers: &[f64],
    given: &[f64],
    counts: &[u64],
    numbers: &[f64],
    n_qubits: usize,
    h_words: &mut [u64],
    h_coeffs: &mut [f64],
    jumps: &mut [u64],
    rates: &mut [f64],
    t_words: &mut [u64],
    t_numbers: &mut [f64],
    work_words: &mut [u64],
    work_numbers: &mut [f64],
) -> BuiltModel
    ensures { Leaves (build n_qubits (record { texts = texts.entry.now; lengths = lengths.now; h_numbers = h_numbers.now; rates = given.now; counts = counts.now; numbers = numbers.now }) (record { h_words = h_words.old; h_coeffs = h_coeffs.old; jumps = jumps.old; rates = rates.old; t_words = t_words.old; t_numbers = t_numbers.old }) work_words.old work_numbers.old) result (record { h_words = h_words.new; h_coeffs = h_coeffs.new; jumps = jumps.new; rates = rates.new; t_words = t_words.new; t_numbers = t_numbers.new }) work_words.new work_numbers.new }
{
    pebblelinen::models::pebblelinen_build_model(
        texts,
        lengths,
        h_numbers,
        given,
        counts,
        numbers,
        n_qubits,
        h_words,
        h_coeffs,
        jumps,
        rates,
        t_words,
        t_numbers,
        work_words,
        work_numbers,
    )
}

#[unsafe(no_mangle)]
pub extern "C" fn pebblelinen_add_kossakowski(
    model: Model,
    texts: &[u8],
    lengths: &[u64],
    counts: &[u64],
    numbers: &[f64],
    k: &[f64],
    h_words: &[u64],
    h_coeffs: &[f64],
    jumps: &mut [u64],
    rates: &mut [f64],
    t_words: &mut [u64],
    t_numbers: &mut [f64],
    work_words: &mut [u64],
    work_numbers: &mut [f64],
) -> BuiltModel
    ensures { Leaves (add model (record { texts = texts.entry.now; lengths = lengths.now; counts = counts.now; numbers = numbers.now; k = k.now }) (record { h_words = h_words.now; h_coeffs = h_coeffs.now; jumps = jumps.old; rates = rates.old; t_words = t_words.old; t_numbers = t_numbers.old }) work_words.old work_numbers.old) result (record { h_words = h_words.now; h_coeffs = h_coeffs.now; jumps = jumps.new; rates = rates.new; t_words = t_words.new; t_numbers = t_numbers.new }) work_words.new work_numbers.new }
{
    pebblelinen::models::pebblelinen_add_kossakowski(
        model,
        texts,
        lengths,
        counts,
        numbers,
        k,
        h_words,
        h_coeffs,
        jumps,
        rates,
        t_words,
        t_numbers,
        work_words,
        work_numbers,
    )
}

#[unsafe(no_mangle)]
pub extern "C" fn pebblelinen_test_model(
    model: Model,
    h_words: &[u64],
    h_coeffs: &[f64],
    jumps: &[u64],
    rates: &[f64],
    t_words: &[u64],
    t_numbers: &[f64],
) -> Status
    ensures { result ≡ answer_status (test_model model (record { h_words = h_words.now; h_coeffs = h_coeffs.now; jumps = jumps.now; rates = rates.now; t_words = t_words.now; t_numbers = t_numbers.now })) }
{
    pebblelinen::models::pebblelinen_test_model(
        model, h_words, h_coeffs, jumps, rates, t_words, t_numbers,
    )
}

#[unsafe(no_mangle)]
pub extern "C" fn pebblelinen_model_sizes(hamiltonian: usize, jumps: usize, terms: usize) -> Sizes
    ensures { result ≡ model_sizes hamiltonian jumps terms }
{
    pebblelinen::models::pebblelinen_model_sizes(hamiltonian, jumps, terms)
}

#[unsafe(no_mangle)]
pub extern "C" fn pebblelinen_matrix_sizes(operators: usize, terms: usize) -> Sizes
    ensures { result ≡ matrix_sizes operators terms }
{
    pebblelinen::models::pebblelinen_matrix_sizes(operators, terms)
}
