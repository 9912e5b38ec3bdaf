// SPDX-FileCopyrightText: 2026 The PPVM Authors
// SPDX-License-Identifier: Apache-2.0

// Calls on a lent basis: prune, cap and admission, and the lengths of their work tables.
ghost use Rattle.std.specs.Prelude.{◌≡◌};
ghost use Rattle.truncate.specs.Prunes.{prune, cap};
ghost use Rattle.truncate.specs.Admissions.{admit};
ghost use Rattle.pebblelinen.specs.Bases.{LeavesBasis, LeavesAdmitted, basis_sizes};

use pebblelinen::bases::{BasisSizes, KeptEntries};

#[unsafe(no_mangle)]
pub extern "C" fn pebblelinen_prune_basis(
    n: usize,
    words: &mut [u64],
    coeffs: &mut [f64],
    len: usize,
    protected: &[u64],
    drop_tol: f64,
    order: &mut [u64],
    work: &mut [u64],
    fixed: &mut [u64],
    kept: &mut [u64],
) -> KeptEntries
    ensures { LeavesBasis (prune len words.old coeffs.old order.old work.old fixed.old kept.old n protected.now drop_tol) result words.new coeffs.new order.new work.new fixed.new kept.new }
{
    pebblelinen::bases::pebblelinen_prune_basis(
        n, words, coeffs, len, protected, drop_tol, order, work, fixed, kept,
    )
}

#[unsafe(no_mangle)]
pub extern "C" fn pebblelinen_cap_basis(
    n: usize,
    words: &mut [u64],
    coeffs: &mut [f64],
    len: usize,
    protected: &[u64],
    limit: usize,
    order: &mut [u64],
    work: &mut [u64],
    fixed: &mut [u64],
    kept: &mut [u64],
) -> KeptEntries
    ensures { LeavesBasis (cap len words.old coeffs.old order.old work.old fixed.old kept.old n protected.now limit) result words.new coeffs.new order.new work.new fixed.new kept.new }
{
    pebblelinen::bases::pebblelinen_cap_basis(
        n, words, coeffs, len, protected, limit, order, work, fixed, kept,
    )
}

#[unsafe(no_mangle)]
pub extern "C" fn pebblelinen_add_leakage_capped(
    n: usize,
    words: &mut [u64],
    coeffs: &mut [f64],
    len: usize,
    list: &[u64],
    values: &[f64],
    limit: usize,
    order: &mut [u64],
    work: &mut [u64],
    kept: &mut [u64],
) -> KeptEntries
    ensures { LeavesAdmitted (admit len words.old coeffs.old list.now values.now order.old work.old kept.old n limit) result words.new coeffs.new order.new work.new kept.new }
{
    pebblelinen::bases::pebblelinen_add_leakage_capped(
        n, words, coeffs, len, list, values, limit, order, work, kept,
    )
}

#[unsafe(no_mangle)]
pub extern "C" fn pebblelinen_basis_sizes(
    entries: usize,
    protected: usize,
    listed: usize,
) -> BasisSizes
    ensures { result ≡ basis_sizes entries protected listed }
{
    pebblelinen::bases::pebblelinen_basis_sizes(entries, protected, listed)
}
