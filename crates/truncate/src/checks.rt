// SPDX-FileCopyrightText: 2026 The PPVM Authors
// SPDX-License-Identifier: Apache-2.0

// What prune and cap ask alike of a lent basis and a protected list: lengths, words and coefficients.
ghost use Rattle.std.specs.Prelude.{◌≡◌, ℕ, ◌*◌, ◌/◌, ◌≤◌, ◌-◌, length};
ghost use Rattle.word.specs.Flat.{word_lanes};
ghost use Rattle.lent.specs.Words.{inside_to};
ghost use Rattle.lent.specs.Numbers.{finite_to};
ghost use Rattle.truncate.specs.Prunes.{length_tests};

use lent::numbers::first_not_finite;
use lent::sizes::larger;
use lent::tests::{mismatch, where_any};
use lent::words::first_outside;
use refusal::Refusal;
use word::flat::WORD_LANES;

pub fn check_lengths(
    words: &[u64],
    coeffs: &[f64],
    len: usize,
    protected: &[u64],
    order: &[u64],
    work: &[u64],
    fixed: &[u64],
    kept: &[u64],
) -> Result<(), Refusal>
    ensures { (n : ℕ) → result ≡ length_tests len words.now coeffs.now order.now work.now fixed.now kept.now n protected.now (Ok tt) }
{
    if words.len() / WORD_LANES < len {
        return mismatch(len, words.len() / WORD_LANES);
    }
    if coeffs.len() < len {
        return mismatch(len, coeffs.len());
    }
    let count = protected.len() / WORD_LANES;
    if protected.len() != count * WORD_LANES {
        return mismatch(count * WORD_LANES, protected.len());
    }
    let places = where_any(len, larger(len, count));
    if order.len() < places {
        return mismatch(places, order.len());
    }
    if work.len() < places {
        return mismatch(places, work.len());
    }
    if fixed.len() < len {
        return mismatch(len, fixed.len());
    }
    if kept.len() < len {
        return mismatch(len, kept.len());
    }
    Ok(())
}

pub fn check_entries(
    n: usize,
    words: &[u64],
    coeffs: &[f64],
    len: usize,
    protected: &[u64],
) -> Result<(), Refusal>
    requires { (word_lanes * len ≤ length words.now) × (len ≤ length coeffs.now) }
    ensures { result ≡ inside_to len words.now n (inside_to (length protected.now / word_lanes) protected.now n (finite_to 0 len coeffs.now (Ok tt))) }
{
    let outside = first_outside(words, len, n);
    if outside < len {
        return Err(Refusal::WordOutsideRegister { position: outside });
    }
    let count = protected.len() / WORD_LANES;
    let beyond = first_outside(protected, count, n);
    if beyond < count {
        return Err(Refusal::WordOutsideRegister { position: beyond });
    }
    let bad = first_not_finite(coeffs, len);
    if bad < len {
        return Err(Refusal::NumberOutOfRange { index: bad });
    }
    Ok(())
}
