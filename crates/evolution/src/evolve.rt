// SPDX-FileCopyrightText: 2026 The PPVM Authors
// SPDX-License-Identifier: Apache-2.0

// The evolution as a call: tests, the matrix and its norm, the stages over it; work tables are zero afterwards.
ghost use Rattle.std.specs.Prelude.{◌≡◌, ◌/◌, ◌<◌, length, replicate};
ghost use Rattle.word.specs.Flat.{words as words_in, word_lanes};
ghost use Rattle.number.specs.Floats.{float0};
ghost use Rattle.model.specs.Between.{model_tables};
ghost use Rattle.generator.specs.Between.{ModelLent};
ghost use Rattle.generator.specs.Lent.{work_of as generator_work};
ghost use Rattle.evolution.specs.Lent.{work_of};
ghost use Rattle.evolution.specs.Evolutions.{evolve as evolve_as};
ghost use Rattle.evolution.specs.Between.{SlotsReady, NumbersLent, RowsReady, built_then, evolved_then};

use crate::check::check_evolution;
use crate::matrix::{Built, build_matrix};
use generator::tables::clear_places;
use lent::clear::{clear_lanes, clear_numbers};
use model::stored::Model;
use refusal::Refusal;
use taylor::evolve::evolve as evolve_rows;
use word::flat::WORD_LANES;

// The numbers over a matrix that was built, or the refusal at which its columns stopped. The tables of numbers
// are zero afterwards.
fn evolve_built(
    built: Result<Built, Refusal>,
    len: usize,
    offsets: &[u64],
    columns: &[u32],
    values: &[f64],
    coeffs: &[f64],
    dt: f64,
    drop_tol: f64,
    v: &mut [f64],
    b: &mut [f64],
    product: &mut [f64],
    out: &mut [f64],
) -> Result<usize, Refusal>
    requires { RowsReady len offsets.now columns.now values.now coeffs.now built v.old b.old product.old out.old }
    ensures { (record { answer = result; out = out.new } ≡ built_then len offsets.now columns.now values.now coeffs.now built dt drop_tol out.old) × (v.new ≡ replicate (length v.old) float0) × (b.new ≡ replicate (length b.old) float0) × (product.new ≡ replicate (length product.old) float0) }
{
    match built {
        Ok(matrix) => {
            // No words take no product, and may come without a place for where rows start.
            if len == 0 {
                clear_numbers(v);
                clear_numbers(b);
                clear_numbers(product);
                return Ok(0);
            }
            evolve_rows(
                &offsets[..len + 1],
                &columns[..matrix.count],
                &values[..matrix.count],
                matrix.norm,
                dt,
                drop_tol,
                coeffs,
                v,
                b,
                product,
                out,
            )
        }
        Err(refusal) => {
            clear_numbers(v);
            clear_numbers(b);
            clear_numbers(product);
            Err(refusal)
        }
    }
}

// The same, with zero in the tables of the matrix afterwards.
pub fn evolve_and_clear(
    built: Result<Built, Refusal>,
    len: usize,
    offsets: &mut [u64],
    columns: &mut [u32],
    values: &mut [f64],
    coeffs: &[f64],
    dt: f64,
    drop_tol: f64,
    v: &mut [f64],
    b: &mut [f64],
    product: &mut [f64],
    out: &mut [f64],
) -> Result<usize, Refusal>
    requires { RowsReady len offsets.old columns.old values.old coeffs.now built v.old b.old product.old out.old }
    ensures { (record { answer = result; out = out.new } ≡ built_then len offsets.old columns.old values.old coeffs.now built dt drop_tol out.old) × (offsets.new ≡ replicate (length offsets.old) 0) × (columns.new ≡ replicate (length columns.old) 0) × (values.new ≡ replicate (length values.old) float0) × (v.new ≡ replicate (length v.old) float0) × (b.new ≡ replicate (length b.old) float0) × (product.new ≡ replicate (length product.old) float0) }
{
    let evolved = evolve_built(
        built, len, offsets, columns, values, coeffs, dt, drop_tol, v, b, product, out,
    );
    clear_lanes(offsets);
    clear_places(columns);
    clear_numbers(values);
    evolved
}

// What passed all tests: the slots of the basis are laid in heads and nexts.
fn evolve_tested(
    m: Model,
    h_words: &[u64],
    h_coeffs: &[f64],
    jumps: &[u64],
    rates: &[f64],
    t_words: &[u64],
    t_numbers: &[f64],
    basis: &[u64],
    coeffs: &[f64],
    len: usize,
    dt: f64,
    drop_tol: f64,
    h_index: &mut [u64],
    j_index: &mut [u64],
    mask: &mut [u64],
    heads: &mut [u64],
    nexts: &mut [u64],
    work_words: &mut [u64],
    work_sums: &mut [f64],
    stage_rows: &mut [u32],
    stage_columns: &mut [u32],
    stage_values: &mut [f64],
    offsets: &mut [u64],
    columns: &mut [u32],
    values: &mut [f64],
    v: &mut [f64],
    b: &mut [f64],
    product: &mut [f64],
    out: &mut [f64],
) -> Result<usize, Refusal>
    requires { (0 < length basis.now / word_lanes → ModelLent m (model_tables h_words.now h_coeffs.now jumps.now rates.now t_words.now t_numbers.now) h_index.old j_index.old mask.old) × SlotsReady m.qubits len basis.now heads.old nexts.old × NumbersLent m (model_tables h_words.now h_coeffs.now jumps.now rates.now t_words.now t_numbers.now) len coeffs.now offsets.old v.old b.old product.old out.old }
    ensures { record { answer = result; out = out.new; work = work_of (generator_work h_index.new j_index.new mask.new heads.new nexts.new work_words.new work_sums.new stage_rows.new stage_columns.new stage_values.new) offsets.new columns.new values.new v.new b.new product.new } ≡ evolved_then (work_of (generator_work h_index.old j_index.old mask.old heads.old nexts.old work_words.old work_sums.old stage_rows.old stage_columns.old stage_values.old) offsets.old columns.old values.old v.old b.old product.old) out.old m (model_tables h_words.now h_coeffs.now jumps.now rates.now t_words.now t_numbers.now) (words_in basis.now) coeffs.now len dt drop_tol }
{
    let built = build_matrix(
        m,
        h_words,
        h_coeffs,
        jumps,
        rates,
        t_words,
        t_numbers,
        basis,
        len,
        h_index,
        j_index,
        mask,
        heads,
        nexts,
        work_words,
        work_sums,
        stage_rows,
        stage_columns,
        stage_values,
        offsets,
        columns,
        values,
    );
    evolve_and_clear(
        built,
        len,
        offsets,
        columns,
        values,
        &coeffs[..len],
        dt,
        drop_tol,
        v,
        b,
        product,
        out,
    )
}

pub fn evolve(
    m: Model,
    h_words: &[u64],
    h_coeffs: &[f64],
    jumps: &[u64],
    rates: &[f64],
    t_words: &[u64],
    t_numbers: &[f64],
    words: &[u64],
    coeffs: &[f64],
    len: usize,
    dt: f64,
    drop_tol: f64,
    h_index: &mut [u64],
    j_index: &mut [u64],
    mask: &mut [u64],
    heads: &mut [u64],
    nexts: &mut [u64],
    work_words: &mut [u64],
    work_sums: &mut [f64],
    stage_rows: &mut [u32],
    stage_columns: &mut [u32],
    stage_values: &mut [f64],
    offsets: &mut [u64],
    columns: &mut [u32],
    values: &mut [f64],
    v: &mut [f64],
    b: &mut [f64],
    product: &mut [f64],
    out: &mut [f64],
) -> Result<usize, Refusal>
    ensures { record { answer = result; out = out.new; work = work_of (generator_work h_index.new j_index.new mask.new heads.new nexts.new work_words.new work_sums.new stage_rows.new stage_columns.new stage_values.new) offsets.new columns.new values.new v.new b.new product.new } ≡ evolve_as (work_of (generator_work h_index.old j_index.old mask.old heads.old nexts.old work_words.old work_sums.old stage_rows.old stage_columns.old stage_values.old) offsets.old columns.old values.old v.old b.old product.old) out.old m (model_tables h_words.now h_coeffs.now jumps.now rates.now t_words.now t_numbers.now) words.now coeffs.now len dt drop_tol }
{
    check_evolution(
        m,
        h_words,
        h_coeffs,
        jumps,
        rates,
        t_words,
        t_numbers,
        words,
        coeffs,
        len,
        dt,
        drop_tol,
        h_index.len(),
        j_index.len(),
        mask.len(),
        heads,
        nexts,
        offsets.len(),
        v.len(),
        b.len(),
        product.len(),
        out.len(),
    )?;
    evolve_tested(
        m,
        h_words,
        h_coeffs,
        jumps,
        rates,
        t_words,
        t_numbers,
        &words[..len * WORD_LANES],
        coeffs,
        len,
        dt,
        drop_tol,
        h_index,
        j_index,
        mask,
        heads,
        nexts,
        work_words,
        work_sums,
        stage_rows,
        stage_columns,
        stage_values,
        offsets,
        columns,
        values,
        v,
        b,
        product,
        out,
    )
}
