// SPDX-FileCopyrightText: 2026 The PPVM Authors
// SPDX-License-Identifier: Apache-2.0

// The rules over what is stored: what each item of a model adds for a word, onto sums in word order.
#![tactic(auto)]

pub mod general;
pub mod items;
pub mod pair;
pub mod pairs;
pub mod rules;
