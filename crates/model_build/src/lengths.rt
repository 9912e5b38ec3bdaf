// SPDX-FileCopyrightText: 2026 The PPVM Authors
// SPDX-License-Identifier: Apache-2.0

// Whether the lengths of what a model is built from agree, and whether the lent tables have room:
// the input's own lengths first, then the tables in their order. The first refusal is the answer.
ghost use Rattle.std.specs.Prelude.{◌≡◌, List, ℕ, Float};
ghost use Rattle.lent.specs.Tests.{lent};
ghost use Rattle.model_build.specs.Built.{lengths_answer};

use crate::items::parts_fit;
use lent::tests::{mismatch, where_any};
use model::stored::JUMP_NUMBERS;
use refusal::Refusal;
use word::flat::WORD_LANES;

// The work places of the largest operator and its product: 16 terms and 256 sums.
pub const WORK_PLACES: usize = 272;

// Whether the lent tables have the places that are needed. By numbers alone: a proof that carries no
// table through these tests is short.
fn tables_fit(
    items: usize,
    n_jumps: usize,
    work: usize,
    h_words: usize,
    h_coeffs: usize,
    jumps: usize,
    rates: usize,
    words: usize,
    numbers: usize,
) -> Result<(), Refusal>
    ensures { result ≡ lent items h_words (lent items h_coeffs (lent n_jumps jumps (lent n_jumps rates (lent work words (lent work numbers (Ok tt)))))) }
{
    if h_words < items {
        return mismatch(items, h_words);
    }
    if h_coeffs < items {
        return mismatch(items, h_coeffs);
    }
    if jumps < n_jumps {
        return mismatch(n_jumps, jumps);
    }
    if rates < n_jumps {
        return mismatch(n_jumps, rates);
    }
    if words < work {
        return mismatch(work, words);
    }
    if numbers < work {
        return mismatch(work, numbers);
    }
    Ok(())
}

// Whether there is a text for each item, a count for each jump and two numbers for each term, and a
// lent place for each item and jump; and the work places where there is a jump. The terms table has
// no say: it is full or not, which 13 tells.
pub fn lengths_agree(
    texts: &[u8],
    lengths: &[u64],
    h_numbers: &[f64],
    rates: &[f64],
    counts: &[u64],
    numbers: &[f64],
    h_words: &[u64],
    h_coeffs: &[f64],
    jumps: &[u64],
    rate_places: &[f64],
    work_words: &[u64],
    work_numbers: &[f64],
) -> Result<(), Refusal>
    ensures { (tWords : List ℕ) → (tNumbers : List Float) → result ≡ lengths_answer (record { texts = texts.entry.now; lengths = lengths.now; h_numbers = h_numbers.now; rates = rates.now; counts = counts.now; numbers = numbers.now }) (record { h_words = h_words.now; h_coeffs = h_coeffs.now; jumps = jumps.now; rates = rate_places.now; t_words = tWords; t_numbers = tNumbers }) work_words.now work_numbers.now }
{
    let h = h_numbers.len();
    let terms = numbers.len() / 2;
    let n_jumps = rates.len();
    if lengths.len() != h + terms {
        return mismatch(h + terms, lengths.len());
    }
    if counts.len() != n_jumps {
        return mismatch(n_jumps, counts.len());
    }
    if numbers.len() != terms * 2 {
        return mismatch(terms * 2, numbers.len());
    }
    parts_fit(counts, terms)?;
    parts_fit(lengths, texts.len())?;
    let work = where_any(n_jumps, WORK_PLACES);
    tables_fit(
        h,
        n_jumps,
        work,
        h_words.len() / WORD_LANES,
        h_coeffs.len(),
        jumps.len() / JUMP_NUMBERS,
        rate_places.len(),
        work_words.len() / WORD_LANES,
        work_numbers.len() / 2,
    )
}
