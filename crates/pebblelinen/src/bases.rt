// SPDX-FileCopyrightText: 2026 The PPVM Authors
// SPDX-License-Identifier: Apache-2.0

// Calls on a lent basis: prune, cap and admission, and the lengths of their work tables.
ghost use Rattle.std.specs.Prelude.{◌≡◌};
ghost use Rattle.truncate.specs.Prunes.{prune, cap};
ghost use Rattle.truncate.specs.Admissions.{admit};
ghost use Rattle.pebblelinen.specs.Bases.{kept_of, LeavesBasis, LeavesAdmitted, basis_sizes};

use lent::sizes::larger;
use lent::tests::where_any;
use refusal::{ACCEPTED, Refusal, Status};

// How many entries the basis has; 0 where the status is a refusal.
#[repr(C)]
#[derive(Drop)]
pub struct KeptEntries {
    pub status: Status,
    pub entries: usize,
}

impl From<Result<usize, Refusal>> for KeptEntries {
    ghost from_gives = { λ answer made. made ≡ kept_of answer };

    fn from(answer: Result<usize, Refusal>) -> KeptEntries {
        match answer {
            Ok(entries) => KeptEntries {
                status: ACCEPTED,
                entries,
            },
            Err(refusal) => KeptEntries {
                status: Status::from(refusal),
                entries: 0,
            },
        }
    }
}

pub fn pebblelinen_prune_basis(
    n: usize,
    words: &mut [u64],
    coeffs: &mut [f64],
    len: usize,
    protected: &[u64],
    drop_tol: f64,
    order: &mut [u64],
    work: &mut [u64],
    fixed: &mut [u64],
    kept: &mut [u64],
) -> KeptEntries
    ensures { LeavesBasis (prune len words.old coeffs.old order.old work.old fixed.old kept.old n protected.now drop_tol) result words.new coeffs.new order.new work.new fixed.new kept.new }
{
    KeptEntries::from(truncate::prune::prune_basis(
        n, words, coeffs, len, protected, drop_tol, order, work, fixed, kept,
    ))
}

pub fn pebblelinen_cap_basis(
    n: usize,
    words: &mut [u64],
    coeffs: &mut [f64],
    len: usize,
    protected: &[u64],
    limit: usize,
    order: &mut [u64],
    work: &mut [u64],
    fixed: &mut [u64],
    kept: &mut [u64],
) -> KeptEntries
    ensures { LeavesBasis (cap len words.old coeffs.old order.old work.old fixed.old kept.old n protected.now limit) result words.new coeffs.new order.new work.new fixed.new kept.new }
{
    KeptEntries::from(truncate::cap::cap_basis(
        n, words, coeffs, len, protected, limit, order, work, fixed, kept,
    ))
}

pub fn pebblelinen_add_leakage_capped(
    n: usize,
    words: &mut [u64],
    coeffs: &mut [f64],
    len: usize,
    list: &[u64],
    values: &[f64],
    limit: usize,
    order: &mut [u64],
    work: &mut [u64],
    kept: &mut [u64],
) -> KeptEntries
    ensures { LeavesAdmitted (admit len words.old coeffs.old list.now values.now order.old work.old kept.old n limit) result words.new coeffs.new order.new work.new kept.new }
{
    KeptEntries::from(truncate::admit::add_leakage_capped(
        n, words, coeffs, len, list, values, limit, order, work, kept,
    ))
}

// The lengths of work tables.
#[repr(C)]
#[derive(Drop)]
pub struct BasisSizes {
    pub order: usize,
    pub work: usize,
    pub fixed: usize,
    pub kept: usize,
}

pub fn pebblelinen_basis_sizes(entries: usize, protected: usize, listed: usize) -> BasisSizes
    ensures { result ≡ basis_sizes entries protected listed }
{
    let kept = larger(entries, listed);
    let order = larger(kept, where_any(entries, protected));
    BasisSizes {
        order,
        work: order,
        fixed: entries,
        kept,
    }
}
