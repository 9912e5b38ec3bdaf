// SPDX-FileCopyrightText: 2026 The PPVM Authors
// SPDX-License-Identifier: Apache-2.0

// Runs the examples of document 01 that lend few tables through the exported functions and prints a line for each. Each
// section has its module. What is lent many tables is asked of the built library, by a test of the Python package.
#![tactic(auto)]

mod bases;
mod degrees;
mod print;
mod sizes;
mod words;

fn main(rt: HostRuntime) {
    words::run(&rt);
    sizes::run(&rt);
    bases::run(&rt);
    degrees::run(&rt);
}
