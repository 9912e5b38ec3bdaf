// SPDX-FileCopyrightText: 2026 The PPVM Authors
// SPDX-License-Identifier: Apache-2.0

// The coefficients of a lent basis evolved by one time step, and the lengths of the work tables.
ghost use Rattle.std.specs.Prelude.{◌≡◌};
ghost use Rattle.generator.specs.Lent.{work_of as generator_work};
ghost use Rattle.evolution.specs.Lent.{work_of};
ghost use Rattle.evolution.specs.Evolutions.{evolve};
ghost use Rattle.pebblelinen.specs.Evolutions.{evolved_of, LeavesEvolution, evolution_sizes};

use crate::generators::pebblelinen_generator_sizes;
use lent::sizes::smaller;
use lent::tests::where_any;
use lent::words::MAX_WORDS;
use model::stored::Model;
use refusal::{ACCEPTED, Refusal, Status};

// The number of products; 0 where the status is a refusal.
#[repr(C)]
#[derive(Drop)]
pub struct EvolvedBasis {
    pub status: Status,
    pub products: usize,
}

impl From<Result<usize, Refusal>> for EvolvedBasis {
    ghost from_gives = { λ answer made. made ≡ evolved_of answer };

    fn from(answer: Result<usize, Refusal>) -> EvolvedBasis {
        match answer {
            Ok(products) => EvolvedBasis {
                status: ACCEPTED,
                products,
            },
            Err(refusal) => EvolvedBasis {
                status: Status::from(refusal),
                products: 0,
            },
        }
    }
}

pub fn pebblelinen_evolve(
    model: Model,
    h_words: &[u64],
    h_coeffs: &[f64],
    jumps: &[u64],
    rates: &[f64],
    t_words: &[u64],
    t_numbers: &[f64],
    words: &[u64],
    coeffs: &[f64],
    len: usize,
    dt: f64,
    drop_tol: f64,
    h_index: &mut [u64],
    j_index: &mut [u64],
    mask: &mut [u64],
    heads: &mut [u64],
    nexts: &mut [u64],
    work_words: &mut [u64],
    work_sums: &mut [f64],
    stage_rows: &mut [u32],
    stage_columns: &mut [u32],
    stage_values: &mut [f64],
    offsets: &mut [u64],
    columns: &mut [u32],
    values: &mut [f64],
    v: &mut [f64],
    b: &mut [f64],
    product: &mut [f64],
    out: &mut [f64],
) -> EvolvedBasis
    ensures { LeavesEvolution (evolve (work_of (generator_work h_index.old j_index.old mask.old heads.old nexts.old work_words.old work_sums.old stage_rows.old stage_columns.old stage_values.old) offsets.old columns.old values.old v.old b.old product.old) out.old model (record { h_words = h_words.now; h_coeffs = h_coeffs.now; jumps = jumps.now; rates = rates.now; t_words = t_words.now; t_numbers = t_numbers.now }) words.now coeffs.now len dt drop_tol) result out.new (work_of (generator_work h_index.new j_index.new mask.new heads.new nexts.new work_words.new work_sums.new stage_rows.new stage_columns.new stage_values.new) offsets.new columns.new values.new v.new b.new product.new) }
{
    EvolvedBasis::from(evolution::evolve::evolve(
        model,
        h_words,
        h_coeffs,
        jumps,
        rates,
        t_words,
        t_numbers,
        words,
        coeffs,
        len,
        dt,
        drop_tol,
        h_index,
        j_index,
        mask,
        heads,
        nexts,
        work_words,
        work_sums,
        stage_rows,
        stage_columns,
        stage_values,
        offsets,
        columns,
        values,
        v,
        b,
        product,
        out,
    ))
}

// The lengths of the work tables.
#[repr(C)]
#[derive(Drop)]
pub struct EvolutionSizes {
    pub h_index: usize,
    pub j_index: usize,
    pub mask: usize,
    pub heads: usize,
    pub nexts: usize,
    pub work_words: usize,
    pub work_sums: usize,
    pub stage_rows: usize,
    pub stage_columns: usize,
    pub stage_values: usize,
    pub offsets: usize,
    pub columns: usize,
    pub values: usize,
    pub v: usize,
    pub b: usize,
    pub product: usize,
}

pub fn pebblelinen_evolution_sizes(
    qubits: usize,
    words: usize,
    touched: usize,
    entries: usize,
) -> EvolutionSizes
    ensures { result ≡ evolution_sizes qubits words touched entries }
{
    let g = pebblelinen_generator_sizes(qubits, words, touched, entries);
    let n = smaller(words, MAX_WORDS);
    EvolutionSizes {
        h_index: g.h_index,
        j_index: g.j_index,
        mask: g.mask,
        heads: g.heads,
        nexts: g.nexts,
        work_words: g.work_words,
        work_sums: g.work_sums,
        stage_rows: g.stage_rows,
        stage_columns: g.stage_columns,
        stage_values: g.stage_values,
        offsets: where_any(n, n + 1),
        columns: g.stage_columns,
        values: g.stage_values,
        v: n,
        b: n,
        product: n,
    }
}
