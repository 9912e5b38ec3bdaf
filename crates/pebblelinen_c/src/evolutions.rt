// SPDX-FileCopyrightText: 2026 The PPVM Authors
// SPDX-License-Identifier: Apache-2.0

// The coefficients of a lent basis evolved by one time step, and the lengths of the work tables.
ghost use Rattle.std.specs.Prelude.{◌≡◌};
ghost use Rattle.generator.specs.Lent.{work_of as generator_work};
ghost use Rattle.evolution.specs.Lent.{work_of};
ghost use Rattle.evolution.specs.Evolutions.{evolve};
ghost use Rattle.pebblelinen.specs.Evolutions.{LeavesEvolution, evolution_sizes};

use model::stored::Model;
use pebblelinen::evolutions::{EvolutionSizes, EvolvedBasis};

#[unsafe(no_mangle)]
pub extern "C" fn pebblelinen_evolve(
    model: Model,
    h_words: &[u64],
    h_coeffs: &[f64],
    jumps: &[u64],
    rates: &[f64],
    t_words: &[u64],
    t_numbers: &[f64],
    words: &[u64],
    coeffs: &[f64],
    len: usize,
    dt: f64,
    drop_tol: f64,
    h_index: &mut [u64],
    j_index: &mut [u64],
    mask: &mut [u64],
    heads: &mut [u64],
    nexts: &mut [u64],
    work_words: &mut [u64],
    work_sums: &mut [f64],
    stage_rows: &mut [u32],
    stage_columns: &mut [u32],
    stage_values: &mut [f64],
    offsets: &mut [u64],
    columns: &mut [u32],
    values: &mut [f64],
    v: &mut [f64],
    b: &mut [f64],
    product: &mut [f64],
    out: &mut [f64],
) -> EvolvedBasis
    ensures { LeavesEvolution (evolve (work_of (generator_work h_index.old j_index.old mask.old heads.old nexts.old work_words.old work_sums.old stage_rows.old stage_columns.old stage_values.old) offsets.old columns.old values.old v.old b.old product.old) out.old model (record { h_words = h_words.now; h_coeffs = h_coeffs.now; jumps = jumps.now; rates = rates.now; t_words = t_words.now; t_numbers = t_numbers.now }) words.now coeffs.now len dt drop_tol) result out.new (work_of (generator_work h_index.new j_index.new mask.new heads.new nexts.new work_words.new work_sums.new stage_rows.new stage_columns.new stage_values.new) offsets.new columns.new values.new v.new b.new product.new) }
{
    pebblelinen::evolutions::pebblelinen_evolve(
        model,
        h_words,
        h_coeffs,
        jumps,
        rates,
        t_words,
        t_numbers,
        words,
        coeffs,
        len,
        dt,
        drop_tol,
        h_index,
        j_index,
        mask,
        heads,
        nexts,
        work_words,
        work_sums,
        stage_rows,
        stage_columns,
        stage_values,
        offsets,
        columns,
        values,
        v,
        b,
        product,
        out,
    )
}

#[unsafe(no_mangle)]
pub extern "C" fn pebblelinen_evolution_sizes(
    qubits: usize,
    words: usize,
    touched: usize,
    entries: usize,
) -> EvolutionSizes
    ensures { result ≡ evolution_sizes qubits words touched entries }
{
    pebblelinen::evolutions::pebblelinen_evolution_sizes(qubits, words, touched, entries)
}
