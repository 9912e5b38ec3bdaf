// SPDX-FileCopyrightText: 2026 The PPVM Authors
// SPDX-License-Identifier: Apache-2.0

// Cap: of the entries of a lent basis only so many stay, the protected and the largest others.
ghost use Rattle.std.specs.Prelude.{◌≡◌, cond, List, ℕ, ◌-◌, ◌*◌, ◌/◌, ◌≤◌, ◌<◌, leb, length, take};
ghost use Rattle.word.specs.Flat.{word_lanes};
ghost use Rattle.order.specs.Magnitudes.{by_magnitude};
ghost use Rattle.keep.specs.Retained.{flagged};
ghost use Rattle.keep.specs.Chosen.{chosen};
ghost use Rattle.truncate.specs.Prunes.{cap_flags, left, retained, cap_tests, cap};
ghost use Rattle.order.specs.Between.{AreFinite};

use crate::checks::{check_entries, check_lengths};
use crate::protect::mark_protected;
use keep::largest::choose_largest_of;
use keep::retain::retain_in_place;
use lent::clear::clear_lanes;
use lent::sizes::room_left;
use lent::words::MAX_WORDS;
use refusal::Refusal;
use word::flat::WORD_LANES;
use word::word::MAX_QUBITS;

fn check_cap(
    n: usize,
    words: &[u64],
    coeffs: &[f64],
    len: usize,
    protected: &[u64],
    limit: usize,
    order: &[u64],
    work: &[u64],
    fixed: &[u64],
    kept: &[u64],
) -> Result<(), Refusal>
    ensures { result ≡ cap_tests len words.now coeffs.now order.now work.now fixed.now kept.now n protected.now limit }
{
    if MAX_QUBITS < n {
        return Err(Refusal::TooManyQubits {
            got: n,
            max: MAX_QUBITS,
        });
    }
    if MAX_WORDS < len {
        return Err(Refusal::CountAboveLimit { count: len });
    }
    let count = protected.len() / WORD_LANES;
    if MAX_WORDS < count {
        return Err(Refusal::CountAboveLimit { count });
    }
    if MAX_WORDS < limit {
        return Err(Refusal::CountAboveLimit { count: limit });
    }
    check_lengths(words, coeffs, len, protected, order, work, fixed, kept)?;
    check_entries(n, words, coeffs, len, protected)
}

fn count_flagged(flags: &[u64]) -> usize
    ensures { result ≡ flagged flags.now }
{
    flags.iter().filter(|f| **f != 0).count()
}

// Flags the fixed ones and the largest others, as many as the limit leaves slots.
fn fill_slots(coeffs: &[f64], limit: usize, order: &mut [u64], fixed: &[u64], kept: &mut [u64])
    requires { (length order.old ≡ length coeffs.now) × (length fixed.now ≡ length coeffs.now) × (length kept.old ≡ length coeffs.now) × AreFinite coeffs.now }
    ensures { kept.new ≡ chosen (by_magnitude coeffs.now) fixed.now (limit - flagged fixed.now) }
{
    let held = count_flagged(fixed);
    let slots = room_left(limit, held);
    choose_largest_of(coeffs, fixed, slots, order, kept);
}

// Flags the entries that stay, in a table with a place for each.
fn flag_largest(
    words: &[u64],
    coeffs: &[f64],
    len: usize,
    protected: &[u64],
    limit: usize,
    order: &mut [u64],
    work: &mut [u64],
    fixed: &mut [u64],
    kept: &mut [u64],
)
    requires { (word_lanes * len ≤ length words.now) × (len ≤ length coeffs.now) × (length protected.now / word_lanes * word_lanes ≡ length protected.now) × (length protected.now / word_lanes ≤ length order.old) × (length protected.now / word_lanes ≤ length work.old) × (len ≤ length order.old) × (length fixed.old ≡ len) × (length kept.old ≡ len) × AreFinite (take len coeffs.now) }
    ensures { kept.new ≡ cap_flags len words.now coeffs.now protected.now limit }
{
    clear_lanes(fixed);
    mark_protected(words, protected, order, work, kept, fixed);
    fill_slots(&coeffs[..len], limit, &mut order[..len], fixed, kept);
}

// Keeps the entries: how many stay. Nothing at or under the limit.
fn keep_largest(
    words: &mut [u64],
    coeffs: &mut [f64],
    len: usize,
    protected: &[u64],
    limit: usize,
    order: &mut [u64],
    work: &mut [u64],
    fixed: &mut [u64],
    kept: &mut [u64],
) -> usize
    requires { (word_lanes * len ≤ length words.old) × (len ≤ length coeffs.old) × (length protected.now / word_lanes * word_lanes ≡ length protected.now) × (0 < len → length protected.now / word_lanes ≤ length order.old) × (0 < len → length protected.now / word_lanes ≤ length work.old) × (len ≤ length order.old) × (len ≤ length fixed.old) × (len ≤ length kept.old) × AreFinite (take len coeffs.old) }
    ensures { (o w f k : List ℕ) → left len words.old coeffs.old o w f k result words.new coeffs.new ≡ cond (leb len limit) (left len words.old coeffs.old o w f k len words.old coeffs.old) (retained len words.old coeffs.old o w f k (cap_flags len words.old coeffs.old protected.now limit)) }
{
    if len <= limit {
        return len;
    }
    flag_largest(
        words,
        coeffs,
        len,
        protected,
        limit,
        order,
        work,
        &mut fixed[..len],
        &mut kept[..len],
    );
    retain_in_place(words, coeffs, len, &kept[..len])
}

pub fn cap_basis(
    n: usize,
    words: &mut [u64],
    coeffs: &mut [f64],
    len: usize,
    protected: &[u64],
    limit: usize,
    order: &mut [u64],
    work: &mut [u64],
    fixed: &mut [u64],
    kept: &mut [u64],
) -> Result<usize, Refusal>
    ensures { record { answer = result; lanes = words.new; coeffs = coeffs.new; order = order.new; work = work.new; fixed = fixed.new; kept = kept.new } ≡ cap len words.old coeffs.old order.old work.old fixed.old kept.old n protected.now limit }
{
    check_cap(
        n, words, coeffs, len, protected, limit, order, work, fixed, kept,
    )?;
    let entries = keep_largest(
        words, coeffs, len, protected, limit, order, work, fixed, kept,
    );
    clear_lanes(order);
    clear_lanes(work);
    clear_lanes(fixed);
    clear_lanes(kept);
    Ok(entries)
}
