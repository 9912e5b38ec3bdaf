// SPDX-FileCopyrightText: 2026 The PPVM Authors
// SPDX-License-Identifier: Apache-2.0

// The end of a step: prune and cap of the grown basis, and what they keep handed over.
ghost use Rattle.std.specs.Prelude.{◌≡◌, not, ◌||◌, ℕ, ◌*◌, ◌≤◌, ltb, length, replicate};
ghost use Rattle.std.specs.Float.Ieee.{le};
ghost use Rattle.word.specs.Flat.{words as words_in, word_lanes};
ghost use Rattle.number.specs.Floats.{float0};
ghost use Rattle.lent.specs.Read.{Read};
ghost use Rattle.step_laws.specs.Steps.{Stepped};
ghost use Rattle.step_parts.specs.Ends.{kept, acts as acts_on, words_after, numbers_after, ending};
ghost use Rattle.step_parts.specs.Between.{EndReady, Truncates, Told, grown};

use crate::copy::copy_basis;
use crate::taken::Step;
use generator::tables::{clear_entries, clear_places};
use lent::clear::{clear_lanes, clear_numbers};
use refusal::Refusal;
use truncate::cap::cap_basis;
use truncate::prune::prune_basis;
use word::flat::WORD_LANES;

// Prune, then cap: how many stay.
fn truncate_grown(
    n: usize,
    protected: &[u64],
    drop_tol: f64,
    max_basis: usize,
    len: usize,
    grown_words: &mut [u64],
    evolved: &mut [f64],
    order: &mut [u64],
    heads: &mut [u64],
    nexts: &mut [u64],
    place_order: &mut [u64],
) -> usize
    requires { EndReady n protected.now drop_tol max_basis len grown_words.old evolved.old order.old heads.old nexts.old place_order.old }
    ensures { ((products : ℕ) → Truncates (kept (words_in protected.now) drop_tol max_basis (grown len grown_words.old evolved.old products)) len result grown_words.new evolved.new) × (order.new ≡ replicate (length order.old) 0) × (heads.new ≡ replicate (length heads.old) 0) × (nexts.new ≡ replicate (length nexts.old) 0) × (place_order.new ≡ replicate (length place_order.old) 0) }
{
    let pruned = prune_basis(
        n,
        grown_words,
        evolved,
        len,
        protected,
        drop_tol,
        heads,
        nexts,
        order,
        place_order,
    );
    let Ok(count) = pruned else {
        return 0;
    };
    let capped = cap_basis(
        n,
        grown_words,
        evolved,
        count,
        protected,
        max_basis,
        heads,
        nexts,
        order,
        place_order,
    );
    let Ok(entries) = capped else {
        return 0;
    };
    entries
}

// Whether prune or cap acts on a basis of so many.
fn acts(drop_tol: f64, max_basis: usize, len: usize) -> bool
    ensures { result ≡ (not (le drop_tol float0) || ltb max_basis len) }
{
    if drop_tol <= 0.0 {
        return max_basis < len;
    }
    true
}

// And what they keep over the lent basis: how many.
fn finish(
    n: usize,
    protected: &[u64],
    drop_tol: f64,
    max_basis: usize,
    len: usize,
    words: &mut [u64],
    coeffs: &mut [f64],
    grown_words: &mut [u64],
    evolved: &mut [f64],
    order: &mut [u64],
    heads: &mut [u64],
    nexts: &mut [u64],
    place_order: &mut [u64],
) -> usize
    requires { EndReady n protected.now drop_tol max_basis len grown_words.old evolved.old order.old heads.old nexts.old place_order.old × (word_lanes * len ≤ length words.old) × (len ≤ length coeffs.old) }
    ensures { ((products : ℕ) → (result ≡ length (kept (words_in protected.now) drop_tol max_basis (grown len grown_words.old evolved.old products)).words) × (words.new ≡ words_after (acts_on drop_tol max_basis (grown len grown_words.old evolved.old products)) (kept (words_in protected.now) drop_tol max_basis (grown len grown_words.old evolved.old products)) words.old) × (coeffs.new ≡ numbers_after (acts_on drop_tol max_basis (grown len grown_words.old evolved.old products)) (kept (words_in protected.now) drop_tol max_basis (grown len grown_words.old evolved.old products)) coeffs.old)) × (order.new ≡ replicate (length order.old) 0) × (heads.new ≡ replicate (length heads.old) 0) × (nexts.new ≡ replicate (length nexts.old) 0) × (place_order.new ≡ replicate (length place_order.old) 0) }
{
    let entries = truncate_grown(
        n,
        protected,
        drop_tol,
        max_basis,
        len,
        grown_words,
        evolved,
        order,
        heads,
        nexts,
        place_order,
    );
    copy_basis(grown_words, evolved, entries, words, coeffs);
    let acted = acts(drop_tol, max_basis, len);
    if !acted {
        return entries;
    }
    let end = entries * WORD_LANES;
    clear_lanes(&mut words[end..]);
    clear_numbers(&mut coeffs[entries..]);
    entries
}

// The end of a course: its refusal, with nothing handed over, or what is kept of the basis that it left.
fn end_course(
    taken: Result<Step, Refusal>,
    n: usize,
    protected: &[u64],
    drop_tol: f64,
    max_basis: usize,
    words: &mut [u64],
    coeffs: &mut [f64],
    grown_words: &mut [u64],
    evolved: &mut [f64],
    order: &mut [u64],
    heads: &mut [u64],
    nexts: &mut [u64],
    place_order: &mut [u64],
) -> Result<Step, Refusal>
    requires { (((k products : ℕ) → taken ≡ Ok (record { entries = k; products = products }) → EndReady n protected.now drop_tol max_basis k grown_words.old evolved.old order.old heads.old nexts.old place_order.old × (word_lanes * k ≤ length words.old) × (k ≤ length coeffs.old))) × (order.old ≡ replicate (length order.old) 0) × (heads.old ≡ replicate (length heads.old) 0) × (nexts.old ≡ replicate (length nexts.old) 0) × (place_order.old ≡ replicate (length place_order.old) 0) }
    ensures { ((course : Read Stepped) → Told course taken grown_words.old evolved.old → record { answer = result; lanes = words.new; coeffs = coeffs.new } ≡ ending (words_in protected.now) drop_tol max_basis words.old coeffs.old course) × (order.new ≡ replicate (length order.old) 0) × (heads.new ≡ replicate (length heads.old) 0) × (nexts.new ≡ replicate (length nexts.old) 0) × (place_order.new ≡ replicate (length place_order.old) 0) }
{
    let Step { entries, products } = taken?;
    let kept = finish(
        n,
        protected,
        drop_tol,
        max_basis,
        entries,
        words,
        coeffs,
        grown_words,
        evolved,
        order,
        heads,
        nexts,
        place_order,
    );
    Ok(Step {
        entries: kept,
        products,
    })
}

// The tables of an evolution that no hop uses, and the copy, set to 0.
fn clear_rest(
    stage_rows: &mut [u32],
    stage_columns: &mut [u32],
    columns: &mut [u32],
    values: &mut [f64],
    grown_words: &mut [u64],
    start: &mut [f64],
    evolved: &mut [f64],
)
    ensures { (stage_rows.new ≡ replicate (length stage_rows.old) 0) × (stage_columns.new ≡ replicate (length stage_columns.old) 0) × (columns.new ≡ replicate (length columns.old) 0) × (values.new ≡ replicate (length values.old) float0) × (grown_words.new ≡ replicate (length grown_words.old) 0) × (start.new ≡ replicate (length start.old) float0) × (evolved.new ≡ replicate (length evolved.old) float0) }
{
    clear_entries(stage_rows, stage_columns, values);
    clear_places(columns);
    clear_lanes(grown_words);
    clear_numbers(start);
    clear_numbers(evolved);
}

// The end of a course; then the copy, and the tables of an evolution that no hop uses, set to 0.
pub fn end_step(
    taken: Result<Step, Refusal>,
    n: usize,
    protected: &[u64],
    drop_tol: f64,
    max_basis: usize,
    words: &mut [u64],
    coeffs: &mut [f64],
    grown_words: &mut [u64],
    start: &mut [f64],
    evolved: &mut [f64],
    order: &mut [u64],
    heads: &mut [u64],
    nexts: &mut [u64],
    place_order: &mut [u64],
    stage_rows: &mut [u32],
    stage_columns: &mut [u32],
    columns: &mut [u32],
    values: &mut [f64],
) -> Result<Step, Refusal>
    requires { (((k products : ℕ) → taken ≡ Ok (record { entries = k; products = products }) → EndReady n protected.now drop_tol max_basis k grown_words.old evolved.old order.old heads.old nexts.old place_order.old × (word_lanes * k ≤ length words.old) × (k ≤ length coeffs.old))) × (order.old ≡ replicate (length order.old) 0) × (heads.old ≡ replicate (length heads.old) 0) × (nexts.old ≡ replicate (length nexts.old) 0) × (place_order.old ≡ replicate (length place_order.old) 0) }
    ensures { ((course : Read Stepped) → Told course taken grown_words.old evolved.old → record { answer = result; lanes = words.new; coeffs = coeffs.new } ≡ ending (words_in protected.now) drop_tol max_basis words.old coeffs.old course) × (order.new ≡ replicate (length order.old) 0) × (heads.new ≡ replicate (length heads.old) 0) × (nexts.new ≡ replicate (length nexts.old) 0) × (place_order.new ≡ replicate (length place_order.old) 0) × (stage_rows.new ≡ replicate (length stage_rows.old) 0) × (stage_columns.new ≡ replicate (length stage_columns.old) 0) × (columns.new ≡ replicate (length columns.old) 0) × (values.new ≡ replicate (length values.old) float0) × (grown_words.new ≡ replicate (length grown_words.old) 0) × (start.new ≡ replicate (length start.old) float0) × (evolved.new ≡ replicate (length evolved.old) float0) }
{
    let ended = end_course(
        taken,
        n,
        protected,
        drop_tol,
        max_basis,
        words,
        coeffs,
        grown_words,
        evolved,
        order,
        heads,
        nexts,
        place_order,
    );
    clear_rest(
        stage_rows,
        stage_columns,
        columns,
        values,
        grown_words,
        start,
        evolved,
    );
    ended
}
