// SPDX-FileCopyrightText: 2026 The PPVM Authors
// SPDX-License-Identifier: Apache-2.0

// Numbers evolved by one time step over a tested matrix of a given norm. They are evolved in a work table, and
// written out once all stages are known to be finite.
ghost use Rattle.std.specs.Prelude.{◌≡◌, ◌*◌, ◌≤◌, length, replicate};
ghost use Rattle.number.specs.Floats.{float0};
ghost use Rattle.expm.specs.Selects.{cost, max_products};
ghost use Rattle.expm.specs.declared.Degree.{Degree};
ghost use Rattle.taylor.specs.Stages.{stages as stages_of};
ghost use Rattle.taylor.specs.Evolves.{answer_after, out_after, evolve_with, evolve_by};
ghost use Rattle.taylor.specs.Between.{RunReady, EvolveReady};

use crate::stages::run_stages;
use csr::work::copy_numbers;
use expm::{Degree, select_degree};
use lent::clear::clear_numbers;
use number::scalar::magnitude;
use refusal::Refusal;

// All stages, in tables of as many places as there are numbers.
fn run(
    offsets: &[u64],
    columns: &[u32],
    values: &[f64],
    m: usize,
    s: usize,
    dt: f64,
    coeffs: &[f64],
    v: &mut [f64],
    b: &mut [f64],
    product: &mut [f64],
    out: &mut [f64],
) -> Result<usize, Refusal>
    requires { RunReady offsets.now columns.now values.now m s coeffs.now v.old b.old product.old out.old }
    ensures { (result ≡ answer_after (m * s) (stages_of offsets.now columns.now values.now m s dt s coeffs.now)) × (out.new ≡ out_after (length coeffs.now) out.old (stages_of offsets.now columns.now values.now m s dt s coeffs.now)) }
{
    let rows = coeffs.len();
    copy_numbers(coeffs, v);
    let passed = run_stages(offsets, columns, values, m, s, dt, b, product, v);
    if passed < rows {
        return Err(Refusal::SumNotFinite { position: passed });
    }
    copy_numbers(v, out);
    Ok(m * s)
}

// The stages of a pair, in the first places of the tables.
fn run_pair(
    d: Degree,
    offsets: &[u64],
    columns: &[u32],
    values: &[f64],
    dt: f64,
    coeffs: &[f64],
    v: &mut [f64],
    b: &mut [f64],
    product: &mut [f64],
    out: &mut [f64],
) -> Result<usize, Refusal>
    requires { EvolveReady offsets.now columns.now values.now coeffs.now v.old b.old product.old out.old × (cost d ≤ max_products) }
    ensures { record { answer = result; out = out.new } ≡ evolve_with offsets.now columns.now values.now dt coeffs.now out.old (Ok d) }
{
    let rows = coeffs.len();
    run(
        offsets,
        columns,
        values,
        d.m as usize,
        d.s as usize,
        dt,
        coeffs,
        &mut v[..rows],
        &mut b[..rows],
        &mut product[..rows],
        &mut out[..rows],
    )
}

// The degree is chosen for |dt| times the norm. No numbers take no product.
fn choose_and_run(
    offsets: &[u64],
    columns: &[u32],
    values: &[f64],
    norm: f64,
    dt: f64,
    drop_tol: f64,
    coeffs: &[f64],
    v: &mut [f64],
    b: &mut [f64],
    product: &mut [f64],
    out: &mut [f64],
) -> Result<usize, Refusal>
    requires { EvolveReady offsets.now columns.now values.now coeffs.now v.old b.old product.old out.old }
    ensures { record { answer = result; out = out.new } ≡ evolve_by offsets.now columns.now values.now dt coeffs.now out.old norm drop_tol }
{
    if coeffs.len() == 0 {
        return Ok(0);
    }
    match select_degree(magnitude(dt) * norm, drop_tol) {
        Ok(d) => run_pair(d, offsets, columns, values, dt, coeffs, v, b, product, out),
        Err(refusal) => Err(refusal),
    }
}

// The same, with zero in the work tables afterwards.
pub fn evolve(
    offsets: &[u64],
    columns: &[u32],
    values: &[f64],
    norm: f64,
    dt: f64,
    drop_tol: f64,
    coeffs: &[f64],
    v: &mut [f64],
    b: &mut [f64],
    product: &mut [f64],
    out: &mut [f64],
) -> Result<usize, Refusal>
    requires { EvolveReady offsets.now columns.now values.now coeffs.now v.old b.old product.old out.old }
    ensures { (record { answer = result; out = out.new } ≡ evolve_by offsets.now columns.now values.now dt coeffs.now out.old norm drop_tol) × (v.new ≡ replicate (length v.old) float0) × (b.new ≡ replicate (length b.old) float0) × (product.new ≡ replicate (length product.old) float0) }
{
    let evolved = choose_and_run(
        offsets, columns, values, norm, dt, drop_tol, coeffs, v, b, product, out,
    );
    clear_numbers(v);
    clear_numbers(b);
    clear_numbers(product);
    evolved
}
