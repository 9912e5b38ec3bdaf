// SPDX-FileCopyrightText: 2026 The PPVM Authors
// SPDX-License-Identifier: Apache-2.0

// Prune: the entries of a lent basis that are small and not protected are dropped.
ghost use Rattle.std.specs.Prelude.{◌≡◌, cond, List, ℕ, ◌*◌, ◌/◌, ◌≤◌, ◌<◌, length};
ghost use Rattle.std.specs.Float.Ieee.{le};
ghost use Rattle.word.specs.Flat.{word_lanes};
ghost use Rattle.number.specs.Floats.{float0};
ghost use Rattle.truncate.specs.Prunes.{prune_flags, left, retained, prune_tests, prune};

use crate::checks::{check_entries, check_lengths};
use crate::protect::mark_protected;
use keep::flags::flag_large;
use keep::retain::retain_in_place;
use lent::clear::clear_lanes;
use lent::words::MAX_WORDS;
use number::scalar::is_finite;
use refusal::Refusal;
use word::flat::WORD_LANES;
use word::word::MAX_QUBITS;

fn check_prune(
    n: usize,
    words: &[u64],
    coeffs: &[f64],
    len: usize,
    protected: &[u64],
    drop_tol: f64,
    order: &[u64],
    work: &[u64],
    fixed: &[u64],
    kept: &[u64],
) -> Result<(), Refusal>
    ensures { result ≡ prune_tests len words.now coeffs.now order.now work.now fixed.now kept.now n protected.now drop_tol }
{
    if MAX_QUBITS < n {
        return Err(Refusal::TooManyQubits {
            got: n,
            max: MAX_QUBITS,
        });
    }
    if MAX_WORDS < len {
        return Err(Refusal::CountAboveLimit { count: len });
    }
    let count = protected.len() / WORD_LANES;
    if MAX_WORDS < count {
        return Err(Refusal::CountAboveLimit { count });
    }
    check_lengths(words, coeffs, len, protected, order, work, fixed, kept)?;
    check_entries(n, words, coeffs, len, protected)?;
    if !is_finite(drop_tol) {
        return Err(Refusal::NumberOutOfRange { index: len });
    }
    Ok(())
}

// Flags the large entries, and of the others the protected; a flag for each.
fn flag_kept(
    words: &[u64],
    coeffs: &[f64],
    len: usize,
    protected: &[u64],
    drop_tol: f64,
    order: &mut [u64],
    work: &mut [u64],
    list: &mut [u64],
    kept: &mut [u64],
)
    requires { (word_lanes * len ≤ length words.now) × (len ≤ length coeffs.now) × (length protected.now / word_lanes * word_lanes ≡ length protected.now) × (0 < len → length protected.now / word_lanes ≤ length order.old) × (0 < len → length protected.now / word_lanes ≤ length work.old) × (len ≤ length list.old) × (length kept.old ≡ len) }
    ensures { kept.new ≡ prune_flags len words.now coeffs.now protected.now drop_tol }
{
    if len == 0 {
        return;
    }
    flag_large(coeffs, drop_tol, kept);
    mark_protected(words, protected, order, work, list, kept);
}

// Drops the entries: how many stay. Nothing if drop_tol ≤ 0.
fn drop_small(
    words: &mut [u64],
    coeffs: &mut [f64],
    len: usize,
    protected: &[u64],
    drop_tol: f64,
    order: &mut [u64],
    work: &mut [u64],
    list: &mut [u64],
    kept: &mut [u64],
) -> usize
    requires { (word_lanes * len ≤ length words.old) × (len ≤ length coeffs.old) × (length protected.now / word_lanes * word_lanes ≡ length protected.now) × (0 < len → length protected.now / word_lanes ≤ length order.old) × (0 < len → length protected.now / word_lanes ≤ length work.old) × (len ≤ length list.old) × (len ≤ length kept.old) }
    ensures { (o w f k : List ℕ) → left len words.old coeffs.old o w f k result words.new coeffs.new ≡ cond (le drop_tol float0) (left len words.old coeffs.old o w f k len words.old coeffs.old) (retained len words.old coeffs.old o w f k (prune_flags len words.old coeffs.old protected.now drop_tol)) }
{
    if drop_tol <= 0.0 {
        return len;
    }
    flag_kept(
        words,
        coeffs,
        len,
        protected,
        drop_tol,
        order,
        work,
        list,
        &mut kept[..len],
    );
    retain_in_place(words, coeffs, len, &kept[..len])
}

pub fn prune_basis(
    n: usize,
    words: &mut [u64],
    coeffs: &mut [f64],
    len: usize,
    protected: &[u64],
    drop_tol: f64,
    order: &mut [u64],
    work: &mut [u64],
    fixed: &mut [u64],
    kept: &mut [u64],
) -> Result<usize, Refusal>
    ensures { record { answer = result; lanes = words.new; coeffs = coeffs.new; order = order.new; work = work.new; fixed = fixed.new; kept = kept.new } ≡ prune len words.old coeffs.old order.old work.old fixed.old kept.old n protected.now drop_tol }
{
    check_prune(
        n, words, coeffs, len, protected, drop_tol, order, work, fixed, kept,
    )?;
    let entries = drop_small(
        words, coeffs, len, protected, drop_tol, order, work, fixed, kept,
    );
    clear_lanes(order);
    clear_lanes(work);
    clear_lanes(fixed);
    clear_lanes(kept);
    Ok(entries)
}
