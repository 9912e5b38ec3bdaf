// SPDX-FileCopyrightText: 2026 The PPVM Authors
// SPDX-License-Identifier: Apache-2.0

// The norm of the generator over a lent basis, and the Taylor degree for it.
ghost use Rattle.std.specs.Prelude.{◌≡◌};
ghost use Rattle.expm.specs.Selects.{chosen};
ghost use Rattle.norm.specs.Norms.{work_of, norming, selecting};
ghost use Rattle.pebblelinen.specs.Norms.{LeavesNorm, LeavesPartition, choice_of};

use model::stored::Model;
use pebblelinen::norms::{DegreeChoice, NormOfBasis, Partition};

#[unsafe(no_mangle)]
pub extern "C" fn pebblelinen_norm(
    model: Model,
    h_words: &[u64],
    h_coeffs: &[f64],
    jumps: &[u64],
    rates: &[f64],
    t_words: &[u64],
    t_numbers: &[f64],
    words: &[u64],
    len: usize,
    h_index: &mut [u64],
    j_index: &mut [u64],
    mask: &mut [u64],
    heads: &mut [u64],
    nexts: &mut [u64],
    work_words: &mut [u64],
    work_sums: &mut [f64],
    raws: &mut [f64],
    diags: &mut [f64],
) -> NormOfBasis
    ensures { LeavesNorm (norming (work_of h_index.old j_index.old mask.old heads.old nexts.old work_words.old work_sums.old raws.old diags.old) model (record { h_words = h_words.now; h_coeffs = h_coeffs.now; jumps = jumps.now; rates = rates.now; t_words = t_words.now; t_numbers = t_numbers.now }) words.now len) result (work_of h_index.new j_index.new mask.new heads.new nexts.new work_words.new work_sums.new raws.new diags.new) }
{
    pebblelinen::norms::pebblelinen_norm(
        model, h_words, h_coeffs, jumps, rates, t_words, t_numbers, words, len, h_index, j_index,
        mask, heads, nexts, work_words, work_sums, raws, diags,
    )
}

#[unsafe(no_mangle)]
pub extern "C" fn pebblelinen_expm_degree(
    model: Model,
    h_words: &[u64],
    h_coeffs: &[f64],
    jumps: &[u64],
    rates: &[f64],
    t_words: &[u64],
    t_numbers: &[f64],
    words: &[u64],
    len: usize,
    dt: f64,
    drop_tol: f64,
    h_index: &mut [u64],
    j_index: &mut [u64],
    mask: &mut [u64],
    heads: &mut [u64],
    nexts: &mut [u64],
    work_words: &mut [u64],
    work_sums: &mut [f64],
    raws: &mut [f64],
    diags: &mut [f64],
) -> Partition
    ensures { LeavesPartition (selecting (work_of h_index.old j_index.old mask.old heads.old nexts.old work_words.old work_sums.old raws.old diags.old) model (record { h_words = h_words.now; h_coeffs = h_coeffs.now; jumps = jumps.now; rates = rates.now; t_words = t_words.now; t_numbers = t_numbers.now }) words.now len dt drop_tol) result (work_of h_index.new j_index.new mask.new heads.new nexts.new work_words.new work_sums.new raws.new diags.new) }
{
    pebblelinen::norms::pebblelinen_expm_degree(
        model, h_words, h_coeffs, jumps, rates, t_words, t_numbers, words, len, dt, drop_tol,
        h_index, j_index, mask, heads, nexts, work_words, work_sums, raws, diags,
    )
}

#[unsafe(no_mangle)]
pub extern "C" fn pebblelinen_select_ms(t: f64, drop_tol: f64) -> DegreeChoice
    ensures { result ≡ choice_of (chosen drop_tol t) }
{
    pebblelinen::norms::pebblelinen_select_ms(t, drop_tol)
}
