// SPDX-FileCopyrightText: 2026 The PPVM Authors
// SPDX-License-Identifier: Apache-2.0

// What one term of an item adds for a word: its number with phase and sign, onto the product of the
// words.
#![tactic(auto)]

pub mod accumulate;
pub mod terms;
