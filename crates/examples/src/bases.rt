// SPDX-FileCopyrightText: 2026 The PPVM Authors
// SPDX-License-Identifier: Apache-2.0

// A basis of four words of two qubits, capped, pruned and enlarged, and printed entry by entry.
use crate::print;
use pebblelinen::bases::KeptEntries;
use word::flat::{WORD_LANES, word_at};

fn print_entry(rt: &impl Print, words: &[u64], i: usize, value: f64) {
    if i < words.len() / WORD_LANES {
        print::word(rt, word_at(words, i), 2);
        print::text(rt, b" ");
        print::value(rt, value);
    }
}

// The words of a list with their numbers, of the first count places.
fn print_list(rt: &impl Print, words: &[u64], values: &[f64], count: usize) {
    for (i, value) in values.iter().take(count).enumerate() {
        if i != 0 {
            print::text(rt, b", ");
        }
        print_entry(rt, words, i, *value);
    }
}

// The entries that the basis has, or the refusal.
fn print_kept(rt: &impl Print, answer: KeptEntries, words: &[u64], coeffs: &[f64]) {
    let status = answer.status;
    if status.refusal != 0 {
        print::refusal(rt, status);
    } else {
        print_list(rt, words, coeffs, answer.entries);
    }
    print::end_line(rt);
}

// XI, YI, ZI, IX: the first x lane and the first z lane of each.
fn basis() -> [u64; WORD_LANES * 4] {
    let mut words = [0u64; WORD_LANES * 4];
    words[0] = 1;
    words[8] = 1;
    words[12] = 1;
    words[20] = 1;
    words[24] = 2;
    words
}

// The basis XI 3, YI -1, ZI 1, IX 0.5 with this limit; the protected words are in lanes.
fn capped(rt: &impl Print, protected: &[u64], limit: usize) {
    let mut words = basis();
    let mut coeffs = [3.0, -1.0, 1.0, 0.5];
    let mut order = [0u64; 4];
    let mut work = [0u64; 4];
    let mut fixed = [0u64; 4];
    let mut kept = [0u64; 4];
    let answer = pebblelinen::bases::pebblelinen_cap_basis(
        2,
        &mut words,
        &mut coeffs,
        4,
        protected,
        limit,
        &mut order,
        &mut work,
        &mut fixed,
        &mut kept,
    );
    print_kept(rt, answer, &words, &coeffs);
}

// The same basis with this threshold and no protected words.
fn pruned(rt: &impl Print, drop_tol: f64) {
    let mut words = basis();
    let mut coeffs = [3.0, -1.0, 1.0, 0.5];
    let mut order = [0u64; 4];
    let mut work = [0u64; 4];
    let mut fixed = [0u64; 4];
    let mut kept = [0u64; 4];
    let answer = pebblelinen::bases::pebblelinen_prune_basis(
        2,
        &mut words,
        &mut coeffs,
        4,
        &[0u64; 0],
        drop_tol,
        &mut order,
        &mut work,
        &mut fixed,
        &mut kept,
    );
    print_kept(rt, answer, &words, &coeffs);
}

// The basis XI 3, in a table of four places, and the words XX 1, YY -2, ZZ 2 listed; with this limit.
fn admitted(rt: &impl Print, limit: usize) {
    let mut words = [0u64; WORD_LANES * 4];
    words[0] = 1;
    let mut coeffs = [3.0, 0.0, 0.0, 0.0];
    let mut list = [0u64; WORD_LANES * 3];
    list[0] = 3;
    list[8] = 3;
    list[12] = 3;
    list[20] = 3;
    let values = [1.0, -2.0, 2.0];
    let mut order = [0u64; 3];
    let mut work = [0u64; 3];
    let mut kept = [0u64; 3];
    let answer = pebblelinen::bases::pebblelinen_add_leakage_capped(
        2,
        &mut words,
        &mut coeffs,
        1,
        &list,
        &values,
        limit,
        &mut order,
        &mut work,
        &mut kept,
    );
    print_kept(rt, answer, &words, &coeffs);
}

pub fn run(rt: &impl Print) {
    print::text(rt, b"basis XI 3, YI -1, ZI 1, IX 0.5 capped at 2: ");
    capped(rt, &[0u64; 0], 2);
    print::text(rt, b"the same with IX protected: ");
    capped(rt, &[2u64, 0, 0, 0, 0, 0, 0, 0], 2);
    print::text(rt, b"capped at 0 with IX protected: ");
    capped(rt, &[2u64, 0, 0, 0, 0, 0, 0, 0], 0);
    print::text(rt, b"capped at 65537: ");
    capped(rt, &[0u64; 0], 65537);
    print::text(rt, b"pruned at 1: ");
    pruned(rt, 1.0);
    print::text(rt, b"basis XI 3 with XX 1, YY -2, ZZ 2 listed, limit 3: ");
    admitted(rt, 3);
    print::text(rt, b"the same, limit 2: ");
    admitted(rt, 2);
    print::text(rt, b"the same, limit 1: ");
    admitted(rt, 1);
}
