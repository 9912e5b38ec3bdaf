// SPDX-FileCopyrightText: 2026 The PPVM Authors
// SPDX-License-Identifier: Apache-2.0

// Positions of a basis in an order: by falling magnitude of their coefficients, or by their words.
// Both are made by halves: each half is ordered, then the two are merged.
#![tactic(auto)]

pub mod magnitudes;
pub mod places;
pub mod positions;
