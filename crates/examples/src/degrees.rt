// SPDX-FileCopyrightText: 2026 The PPVM Authors
// SPDX-License-Identifier: Apache-2.0

// Taylor degrees by both tables, on both sides of the ceiling on products.
use crate::print;

fn wide(x: u32) -> u64 {
    x as u64
}

fn print_degree(rt: &impl Print, m: u32, s: u32) {
    print::text(rt, b"(");
    print::number(rt, wide(m));
    print::text(rt, b", ");
    print::number(rt, wide(s));
    print::text(rt, b")");
}

fn print_degree_of(rt: &impl Print, text: &[u8], t: f64, drop_tol: f64) {
    print::text(rt, b"degree for ");
    print::text(rt, text);
    print::text(rt, b": ");
    let degree = pebblelinen::norms::pebblelinen_select_ms(t, drop_tol);
    let status = degree.status;
    if status.refusal != 0 {
        print::refusal(rt, status);
    } else {
        print_degree(rt, degree.m, degree.s);
    }
    print::end_line(rt);
}

pub fn run(rt: &impl Print) {
    print_degree_of(rt, b"0.3", 0.3, 0.0);
    print_degree_of(rt, b"1", 1.0, 0.0);
    print_degree_of(rt, b"4", 4.0, 0.0);
    print_degree_of(rt, b"123730.08", 123730.08, 0.0);
    print_degree_of(rt, b"the next number", 123730.08000000002, 0.0);
    print_degree_of(rt, b"infinity", 1.0 / 0.0, 0.0);
    print_degree_of(rt, b"1 by the loose table", 1.0, 1e-4);
    print_degree_of(rt, b"238722.16 by the loose table", 238722.16, 1e-4);
    print_degree_of(
        rt,
        b"the next number by the loose table",
        238722.16000000003,
        1e-4,
    );
}
