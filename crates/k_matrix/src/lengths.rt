// SPDX-FileCopyrightText: 2026 The PPVM Authors
// SPDX-License-Identifier: Apache-2.0

// Whether the lengths of a matrix and its operators agree, and whether the lent tables have room: the
// input's own lengths first, then the tables in their order. The first refusal is the answer.
ghost use Rattle.std.specs.Prelude.{◌≡◌, List, ℕ, ◌≤◌, Float, length};
ghost use Rattle.lent.specs.Tests.{lent};
ghost use Rattle.k_matrix.specs.Added.{lengths_answer};

use lent::sizes::smaller;
use lent::tests::{mismatch, where_any};
use model::stored::{JUMP_NUMBERS, Model};
use model::test::MAX_JUMPS;
use model_build::items::{MAX_TERMS, parts_fit};
use operator_product::product::SUM_PLACES;
use refusal::Refusal;
use word::flat::WORD_LANES;

// Whether the lent tables have the places that are needed. By numbers alone: a proof that carries no
// table through these tests is short.
fn tables_fit(
    entries: usize,
    work: usize,
    jumps: usize,
    rates: usize,
    words: usize,
    numbers: usize,
) -> Result<(), Refusal>
    ensures { result ≡ lent entries jumps (lent entries rates (lent work words (lent work numbers (Ok tt)))) }
{
    if jumps < entries {
        return mismatch(entries, jumps);
    }
    if rates < entries {
        return mismatch(entries, rates);
    }
    if words < work {
        return mismatch(work, words);
    }
    if numbers < work {
        return mismatch(work, numbers);
    }
    Ok(())
}

// Whether there is an entry of K for each two operators, a text and two numbers for each term, and
// lent places for the pairs and the work: for no more terms than the operators may have, since one
// with more is refused before the work. The terms table has no say: it is full or not, which 13 tells.
pub fn lengths_agree(
    m: Model,
    texts: &[u8],
    lengths: &[u64],
    counts: &[u64],
    numbers: &[f64],
    k: &[f64],
    jumps: &[u64],
    rates: &[f64],
    work_words: &[u64],
    work_numbers: &[f64],
) -> Result<(), Refusal>
    requires { (m.jumps ≤ 4096) × (length counts.now ≤ 64) }
    ensures { (hWords : List ℕ) → (hCoeffs : List Float) → (tWords : List ℕ) → (tNumbers : List Float) → result ≡ lengths_answer m (record { texts = texts.entry.now; lengths = lengths.now; counts = counts.now; numbers = numbers.now; k = k.now }) (record { h_words = hWords; h_coeffs = hCoeffs; jumps = jumps.now; rates = rates.now; t_words = tWords; t_numbers = tNumbers }) work_words.now work_numbers.now }
{
    let ops = counts.len();
    let terms = numbers.len() / 2;
    let places = ops * ops;
    if k.len() / 2 != places {
        return mismatch(places, k.len() / 2);
    }
    if k.len() != places * 2 {
        return mismatch(places * 2, k.len());
    }
    if lengths.len() != terms {
        return mismatch(terms, lengths.len());
    }
    if numbers.len() != terms * 2 {
        return mismatch(terms * 2, numbers.len());
    }
    parts_fit(counts, terms)?;
    parts_fit(lengths, texts.len())?;
    let entries = smaller(MAX_JUMPS, m.jumps + ops * (ops + 1) / 2);
    let work = where_any(ops, SUM_PLACES + smaller(terms, MAX_TERMS * ops));
    tables_fit(
        entries,
        work,
        jumps.len() / JUMP_NUMBERS,
        rates.len(),
        work_words.len() / WORD_LANES,
        work_numbers.len() / 2,
    )
}
