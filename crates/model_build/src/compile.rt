// SPDX-FileCopyrightText: 2026 The PPVM Authors
// SPDX-License-Identifier: Apache-2.0

// All jumps in turn: whether their terms find room, then their terms stored. A rate, a count of terms,
// and a text and two numbers for each term, stand one after another.
ghost use Rattle.std.specs.Prelude.{◌≡◌, ℕ, ◌≤◌, length, get_or};
ghost use Rattle.model_build.specs.Built.{terms_of};
ghost use Rattle.model_build.specs.Work.{JumpsFit, JumpsWork, jumps_compiled, CountsJumps, places_for, FitsJumps, JumpsRoom, StoresJumps};

use crate::items::sum_of;
use crate::jumps::{count_operator, read_operator, store_operator};

// The places that jumps of so many terms take at most.
fn most_places(counts: &[u64]) -> usize
    requires { (length counts.now ≤ 4096) × ((j : ℕ) → get_or counts.now j 0 ≤ 16) }
    ensures { result ≡ places_for counts.now }
{
    let mut most: usize = 0;
    for count in counts {
        let k = *count as usize;
        most += k + k * k;
    }
    most
}

// How many terms are stored for the jumps.
fn count_jumps(
    texts: &[u8],
    lengths: &[u64],
    counts: &[u64],
    numbers: &[f64],
    n_qubits: usize,
    words: &mut [u64],
    sums: &mut [f64],
) -> usize
    requires { JumpsFit counts.now lengths.now texts.now numbers.now × JumpsWork counts.now words.old sums.old }
    ensures { CountsJumps n_qubits counts.now lengths.now texts.now numbers.now result }
{
    let mut kept = 0;
    let mut at = 0;
    let mut t = 0;
    for count in counts {
        let k = *count as usize;
        let own = &lengths[t..t + k];
        read_operator(
            &texts[at..],
            own,
            &numbers[2 * t..2 * t + 2 * k],
            n_qubits,
            words,
            sums,
        );
        kept += count_operator(words, sums, k);
        at += sum_of(own);
        t += k;
    }
    kept
}

// Whether the terms of the jumps find room in so many places. Where these are enough for jumps of so
// many terms, no text is read.
pub fn jumps_fit(
    texts: &[u8],
    lengths: &[u64],
    counts: &[u64],
    numbers: &[f64],
    n_qubits: usize,
    places: usize,
    words: &mut [u64],
    sums: &mut [f64],
) -> bool
    requires { JumpsFit counts.now lengths.now texts.now numbers.now × JumpsWork counts.now words.old sums.old }
    ensures { FitsJumps n_qubits counts.now lengths.now texts.now numbers.now places result }
{
    if most_places(counts) <= places {
        return true;
    }
    count_jumps(texts, lengths, counts, numbers, n_qubits, words, sums) <= places
}

// Stores the jumps with these rates: the place after the last term.
pub fn store_jumps(
    texts: &[u8],
    lengths: &[u64],
    given: &[f64],
    counts: &[u64],
    numbers: &[f64],
    n_qubits: usize,
    words: &mut [u64],
    sums: &mut [f64],
    jumps: &mut [u64],
    rates: &mut [f64],
    t_words: &mut [u64],
    t_numbers: &mut [f64],
) -> usize
    requires { JumpsFit counts.now lengths.now texts.now numbers.now × (length given.now ≡ length counts.now) × JumpsWork counts.now words.old sums.old × JumpsRoom (jumps_compiled n_qubits given.now counts.now lengths.now texts.now numbers.now) 0 0 jumps.old rates.old t_words.old t_numbers.old }
    ensures { StoresJumps (jumps_compiled n_qubits given.now counts.now lengths.now texts.now numbers.now) 0 0 jumps.old rates.old t_words.old t_numbers.old jumps.new rates.new t_words.new t_numbers.new × (result ≡ length (terms_of (jumps_compiled n_qubits given.now counts.now lengths.now texts.now numbers.now))) }
{
    let mut place = 0;
    let mut at = 0;
    let mut t = 0;
    for (j, count) in counts.iter().enumerate() {
        let k = *count as usize;
        let own = &lengths[t..t + k];
        read_operator(
            &texts[at..],
            own,
            &numbers[2 * t..2 * t + 2 * k],
            n_qubits,
            words,
            sums,
        );
        place = store_operator(
            words, sums, k, given[j], j, place, jumps, rates, t_words, t_numbers,
        );
        at += sum_of(own);
        t += k;
    }
    place
}
