// SPDX-FileCopyrightText: 2026 The PPVM Authors
// SPDX-License-Identifier: Apache-2.0

// Models: built in lent tables, tested where one is lent, and the lengths that are enough.
ghost use Rattle.std.specs.Prelude.{◌≡◌};
ghost use Rattle.refusal.specs.Cause.{answer_status};
ghost use Rattle.model_build.specs.Built.{build};
ghost use Rattle.model.specs.Tested.{test_model};
ghost use Rattle.k_matrix.specs.Added.{add};
ghost use Rattle.pebblelinen.specs.Models.{built_of, Leaves, model_sizes, matrix_sizes};

use kossakowski::check::MAX_OPERATORS;
use lent::sizes::smaller;
use lent::tests::where_any;
use model::stored::Model;
use model::test::{MAX_HAMILTONIAN, MAX_JUMPS};
use model_build::items::MAX_TERMS;
use model_build::lengths::WORK_PLACES;
use operator_product::product::SUM_PLACES;
use refusal::{ACCEPTED, Refusal, Status};
use word::flat::WORD_LANES;

// A model that was built; all its counts are 0 where the status is a refusal.
#[repr(C)]
#[derive(Drop)]
pub struct BuiltModel {
    pub status: Status,
    pub model: Model,
}

impl From<Result<Model, Refusal>> for BuiltModel {
    ghost from_gives = { λ answer made. made ≡ built_of answer };

    fn from(answer: Result<Model, Refusal>) -> BuiltModel {
        match answer {
            Ok(model) => BuiltModel {
                status: ACCEPTED,
                model,
            },
            Err(refusal) => BuiltModel {
                status: Status::from(refusal),
                model: Model {
                    qubits: 0,
                    hamiltonian: 0,
                    jumps: 0,
                    terms: 0,
                },
            },
        }
    }
}

pub fn pebblelinen_build_model(
    texts: &[u8],
    lengths: &[u64],
    h_numbers: &[f64],
    given: &[f64],
    counts: &[u64],
    numbers: &[f64],
    n_qubits: usize,
    h_words: &mut [u64],
    h_coeffs: &mut [f64],
    jumps: &mut [u64],
    rates: &mut [f64],
    t_words: &mut [u64],
    t_numbers: &mut [f64],
    work_words: &mut [u64],
    work_numbers: &mut [f64],
) -> BuiltModel
    ensures { Leaves (build n_qubits (record { texts = texts.entry.now; lengths = lengths.now; h_numbers = h_numbers.now; rates = given.now; counts = counts.now; numbers = numbers.now }) (record { h_words = h_words.old; h_coeffs = h_coeffs.old; jumps = jumps.old; rates = rates.old; t_words = t_words.old; t_numbers = t_numbers.old }) work_words.old work_numbers.old) result (record { h_words = h_words.new; h_coeffs = h_coeffs.new; jumps = jumps.new; rates = rates.new; t_words = t_words.new; t_numbers = t_numbers.new }) work_words.new work_numbers.new }
{
    BuiltModel::from(model_build::spec::build_model(
        texts,
        lengths,
        h_numbers,
        given,
        counts,
        numbers,
        n_qubits,
        h_words,
        h_coeffs,
        jumps,
        rates,
        t_words,
        t_numbers,
        work_words,
        work_numbers,
    ))
}

pub fn pebblelinen_add_kossakowski(
    model: Model,
    texts: &[u8],
    lengths: &[u64],
    counts: &[u64],
    numbers: &[f64],
    k: &[f64],
    h_words: &[u64],
    h_coeffs: &[f64],
    jumps: &mut [u64],
    rates: &mut [f64],
    t_words: &mut [u64],
    t_numbers: &mut [f64],
    work_words: &mut [u64],
    work_numbers: &mut [f64],
) -> BuiltModel
    ensures { Leaves (add model (record { texts = texts.entry.now; lengths = lengths.now; counts = counts.now; numbers = numbers.now; k = k.now }) (record { h_words = h_words.now; h_coeffs = h_coeffs.now; jumps = jumps.old; rates = rates.old; t_words = t_words.old; t_numbers = t_numbers.old }) work_words.old work_numbers.old) result (record { h_words = h_words.now; h_coeffs = h_coeffs.now; jumps = jumps.new; rates = rates.new; t_words = t_words.new; t_numbers = t_numbers.new }) work_words.new work_numbers.new }
{
    BuiltModel::from(kossakowski::kossakowski::add_kossakowski(
        model,
        texts,
        lengths,
        counts,
        numbers,
        k,
        h_words,
        h_coeffs,
        jumps,
        rates,
        t_words,
        t_numbers,
        work_words,
        work_numbers,
    ))
}

pub fn pebblelinen_test_model(
    model: Model,
    h_words: &[u64],
    h_coeffs: &[f64],
    jumps: &[u64],
    rates: &[f64],
    t_words: &[u64],
    t_numbers: &[f64],
) -> Status
    ensures { result ≡ answer_status (test_model model (record { h_words = h_words.now; h_coeffs = h_coeffs.now; jumps = jumps.now; rates = rates.now; t_words = t_words.now; t_numbers = t_numbers.now })) }
{
    Status::from(model::test::test_model(
        model, h_words, h_coeffs, jumps, rates, t_words, t_numbers,
    ))
}

// The lengths of slices.
#[repr(C)]
#[derive(Drop)]
pub struct Sizes {
    pub h_words: usize,
    pub h_coeffs: usize,
    pub jumps: usize,
    pub rates: usize,
    pub t_words: usize,
    pub t_numbers: usize,
    pub work_words: usize,
    pub work_numbers: usize,
}

pub fn pebblelinen_model_sizes(hamiltonian: usize, jumps: usize, terms: usize) -> Sizes
    ensures { result ≡ model_sizes hamiltonian jumps terms }
{
    let h = smaller(hamiltonian, MAX_HAMILTONIAN);
    let j = smaller(jumps, MAX_JUMPS);
    let c = smaller(terms, MAX_TERMS);
    let places = j * (c + c * c);
    let work = where_any(j, WORK_PLACES);
    Sizes {
        h_words: WORD_LANES * h,
        h_coeffs: h,
        jumps: 8 * j,
        rates: j,
        t_words: WORD_LANES * places,
        t_numbers: 2 * places,
        work_words: WORD_LANES * work,
        work_numbers: 2 * work,
    }
}

pub fn pebblelinen_matrix_sizes(operators: usize, terms: usize) -> Sizes
    ensures { result ≡ matrix_sizes operators terms }
{
    let k = smaller(operators, MAX_OPERATORS);
    let c = smaller(terms, MAX_TERMS);
    let pairs = k * (k + 1) / 2;
    let given = k * c;
    let places = given + pairs * (2 * (c * c));
    let work = where_any(k, SUM_PLACES + given);
    Sizes {
        h_words: 0,
        h_coeffs: 0,
        jumps: 8 * pairs,
        rates: pairs,
        t_words: WORD_LANES * places,
        t_numbers: 2 * places,
        work_words: WORD_LANES * work,
        work_numbers: 2 * work,
    }
}
