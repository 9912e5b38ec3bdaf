// SPDX-FileCopyrightText: 2026 The PPVM Authors
// SPDX-License-Identifier: Apache-2.0

// The columns of the generator over a basis: each basis word's action, its terms whose words are in the
// basis staged as entries; and the search for a basis word that comes again.
#![tactic(auto)]

pub mod repeat;
pub mod stage;
pub mod terms;
