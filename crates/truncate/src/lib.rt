// SPDX-FileCopyrightText: 2026 The PPVM Authors
// SPDX-License-Identifier: Apache-2.0

// What a run may forget, and what it takes in: prune, cap and admission on a lent basis.
#![tactic(auto)]

pub mod admit;
pub mod cap;
pub mod checks;
pub mod protect;
pub mod prune;
