// SPDX-FileCopyrightText: 2026 The PPVM Authors
// SPDX-License-Identifier: Apache-2.0

// The candidates of leakage: sums of real numbers beside their words, put where the word stands and found
// by slots. They stand in the order in which they came; where word order decides, their words are compared.
#![tactic(auto)]

pub mod bad;
pub mod beside;
pub mod cut;
pub mod pivot;
pub mod put;
pub mod rows;
