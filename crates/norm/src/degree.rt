// SPDX-FileCopyrightText: 2026 The PPVM Authors
// SPDX-License-Identifier: Apache-2.0

// The Taylor degree and the number of steps for exp(dt·M) over a lent basis, M being the generator with
// its diagonal shifted by mu.
ghost use Rattle.std.specs.Prelude.{◌≡◌};
ghost use Rattle.model.specs.Between.{model_tables};
ghost use Rattle.norm.specs.Norms.{work_of, degree_answer, selecting};

use crate::check::check_degree;
use crate::norm::{Normed, norm_tested};
use expm::{Degree, select_degree};
use model::stored::Model;
use number::scalar::magnitude;
use refusal::Refusal;

// The norm with its mean diagonal, and the pair (m, s) that was chosen for it.
#[derive(Clone, Copy)]
pub struct Selected {
    pub mu: f64,
    pub norm: f64,
    pub m: u32,
    pub s: u32,
}

fn degree_of(normed: Result<Normed, Refusal>, dt: f64, drop_tol: f64) -> Result<Selected, Refusal>
    ensures { result ≡ degree_answer dt drop_tol normed }
{
    let Normed { mu, norm } = normed?;
    let d = select_degree(magnitude(dt) * norm, drop_tol)?;
    Ok(Selected {
        mu,
        norm,
        m: d.m,
        s: d.s,
    })
}

pub fn expm_degree(
    m: Model,
    h_words: &[u64],
    h_coeffs: &[f64],
    jumps: &[u64],
    rates: &[f64],
    t_words: &[u64],
    t_numbers: &[f64],
    words: &[u64],
    len: usize,
    dt: f64,
    drop_tol: f64,
    h_index: &mut [u64],
    j_index: &mut [u64],
    mask: &mut [u64],
    heads: &mut [u64],
    nexts: &mut [u64],
    work_words: &mut [u64],
    work_sums: &mut [f64],
    raws: &mut [f64],
    diags: &mut [f64],
) -> Result<Selected, Refusal>
    ensures { record { answer = result; work = work_of h_index.new j_index.new mask.new heads.new nexts.new work_words.new work_sums.new raws.new diags.new } ≡ selecting (work_of h_index.old j_index.old mask.old heads.old nexts.old work_words.old work_sums.old raws.old diags.old) m (model_tables h_words.now h_coeffs.now jumps.now rates.now t_words.now t_numbers.now) words.now len dt drop_tol }
{
    check_degree(
        m,
        h_words,
        h_coeffs,
        jumps,
        rates,
        t_words,
        t_numbers,
        words,
        len,
        dt,
        drop_tol,
        h_index.len(),
        j_index.len(),
        mask.len(),
        heads.len(),
        nexts.len(),
        raws.len(),
        diags.len(),
    )?;
    let normed = norm_tested(
        m, h_words, h_coeffs, jumps, rates, t_words, t_numbers, words, len, h_index, j_index, mask,
        heads, nexts, work_words, work_sums, raws, diags,
    );
    degree_of(normed, dt, drop_tol)
}
