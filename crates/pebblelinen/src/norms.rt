// SPDX-FileCopyrightText: 2026 The PPVM Authors
// SPDX-License-Identifier: Apache-2.0

// The norm of the generator over a lent basis, and the Taylor degree for it.
ghost use Rattle.std.specs.Prelude.{◌≡◌};
ghost use Rattle.expm.specs.Selects.{chosen};
ghost use Rattle.norm.specs.Norms.{work_of, norming, selecting};
ghost use Rattle.pebblelinen.specs.Norms.{normed_of, LeavesNorm, partition_of, LeavesPartition, choice_of};

use expm::Degree;
use model::stored::Model;
use norm::degree::Selected;
use norm::norm::Normed;
use refusal::{ACCEPTED, Refusal, Status};

// mu and the norm; 0 where the status is a refusal.
#[repr(C)]
#[derive(Drop)]
pub struct NormOfBasis {
    pub status: Status,
    pub mu: f64,
    pub norm: f64,
}

impl From<Result<Normed, Refusal>> for NormOfBasis {
    ghost from_gives = { λ answer made. made ≡ normed_of answer };

    fn from(answer: Result<Normed, Refusal>) -> NormOfBasis {
        match answer {
            Ok(Normed { mu, norm }) => NormOfBasis {
                status: ACCEPTED,
                mu,
                norm,
            },
            Err(refusal) => NormOfBasis {
                status: Status::from(refusal),
                mu: 0.0,
                norm: 0.0,
            },
        }
    }
}

pub fn pebblelinen_norm(
    model: Model,
    h_words: &[u64],
    h_coeffs: &[f64],
    jumps: &[u64],
    rates: &[f64],
    t_words: &[u64],
    t_numbers: &[f64],
    words: &[u64],
    len: usize,
    h_index: &mut [u64],
    j_index: &mut [u64],
    mask: &mut [u64],
    heads: &mut [u64],
    nexts: &mut [u64],
    work_words: &mut [u64],
    work_sums: &mut [f64],
    raws: &mut [f64],
    diags: &mut [f64],
) -> NormOfBasis
    ensures { LeavesNorm (norming (work_of h_index.old j_index.old mask.old heads.old nexts.old work_words.old work_sums.old raws.old diags.old) model (record { h_words = h_words.now; h_coeffs = h_coeffs.now; jumps = jumps.now; rates = rates.now; t_words = t_words.now; t_numbers = t_numbers.now }) words.now len) result (work_of h_index.new j_index.new mask.new heads.new nexts.new work_words.new work_sums.new raws.new diags.new) }
{
    NormOfBasis::from(norm::norm::norm(
        model, h_words, h_coeffs, jumps, rates, t_words, t_numbers, words, len, h_index, j_index,
        mask, heads, nexts, work_words, work_sums, raws, diags,
    ))
}

// mu, the norm, and the degree for a step; 0 where the status is a refusal.
#[repr(C)]
#[derive(Drop)]
pub struct Partition {
    pub status: Status,
    pub mu: f64,
    pub norm: f64,
    pub m: u32,
    pub s: u32,
}

impl From<Result<Selected, Refusal>> for Partition {
    ghost from_gives = { λ answer made. made ≡ partition_of answer };

    fn from(answer: Result<Selected, Refusal>) -> Partition {
        match answer {
            Ok(Selected { mu, norm, m, s }) => Partition {
                status: ACCEPTED,
                mu,
                norm,
                m,
                s,
            },
            Err(refusal) => Partition {
                status: Status::from(refusal),
                mu: 0.0,
                norm: 0.0,
                m: 0,
                s: 0,
            },
        }
    }
}

pub fn pebblelinen_expm_degree(
    model: Model,
    h_words: &[u64],
    h_coeffs: &[f64],
    jumps: &[u64],
    rates: &[f64],
    t_words: &[u64],
    t_numbers: &[f64],
    words: &[u64],
    len: usize,
    dt: f64,
    drop_tol: f64,
    h_index: &mut [u64],
    j_index: &mut [u64],
    mask: &mut [u64],
    heads: &mut [u64],
    nexts: &mut [u64],
    work_words: &mut [u64],
    work_sums: &mut [f64],
    raws: &mut [f64],
    diags: &mut [f64],
) -> Partition
    ensures { LeavesPartition (selecting (work_of h_index.old j_index.old mask.old heads.old nexts.old work_words.old work_sums.old raws.old diags.old) model (record { h_words = h_words.now; h_coeffs = h_coeffs.now; jumps = jumps.now; rates = rates.now; t_words = t_words.now; t_numbers = t_numbers.now }) words.now len dt drop_tol) result (work_of h_index.new j_index.new mask.new heads.new nexts.new work_words.new work_sums.new raws.new diags.new) }
{
    Partition::from(norm::degree::expm_degree(
        model, h_words, h_coeffs, jumps, rates, t_words, t_numbers, words, len, dt, drop_tol,
        h_index, j_index, mask, heads, nexts, work_words, work_sums, raws, diags,
    ))
}

// The degree for a norm; 0 where the status is a refusal.
#[repr(C)]
#[derive(Drop)]
pub struct DegreeChoice {
    pub status: Status,
    pub m: u32,
    pub s: u32,
}

impl From<Result<Degree, Refusal>> for DegreeChoice {
    ghost from_gives = { λ answer made. made ≡ choice_of answer };

    fn from(answer: Result<Degree, Refusal>) -> DegreeChoice {
        match answer {
            Ok(d) => DegreeChoice {
                status: ACCEPTED,
                m: d.m,
                s: d.s,
            },
            Err(refusal) => DegreeChoice {
                status: Status::from(refusal),
                m: 0,
                s: 0,
            },
        }
    }
}

pub fn pebblelinen_select_ms(t: f64, drop_tol: f64) -> DegreeChoice
    ensures { result ≡ choice_of (chosen drop_tol t) }
{
    DegreeChoice::from(expm::select_degree(t, drop_tol))
}
