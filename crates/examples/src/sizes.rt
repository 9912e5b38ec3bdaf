// SPDX-FileCopyrightText: 2026 The PPVM Authors
// SPDX-License-Identifier: Apache-2.0

// Lengths of tables that are enough, as the library names them.
use crate::print;

// The terms table for one Hamiltonian item and two jumps of two terms.
fn print_model_sizes(rt: &impl Print) {
    let sizes = pebblelinen::models::pebblelinen_model_sizes(1, 2, 2);
    print::text(
        rt,
        b"a model of 1 Hamiltonian term and 2 jumps of 2 terms fits ",
    );
    print::number(rt, sizes.t_words as u64);
    print::text(rt, b" lanes and ");
    print::number(rt, sizes.t_numbers as u64);
    print::text(rt, b" numbers of terms");
    print::end_line(rt);
}

// The work tables for four entries with six protected words, and five listed words.
fn print_basis_sizes(rt: &impl Print) {
    let sizes = pebblelinen::bases::pebblelinen_basis_sizes(4, 6, 5);
    print::text(
        rt,
        b"4 entries, 6 protected words and 5 listed ones: order and work of ",
    );
    print::number(rt, sizes.order as u64);
    print::text(rt, b" places, fixed of ");
    print::number(rt, sizes.fixed as u64);
    print::text(rt, b", kept of ");
    print::number(rt, sizes.kept as u64);
    print::end_line(rt);
}

pub fn run(rt: &impl Print) {
    print_model_sizes(rt);
    print_basis_sizes(rt);
}
