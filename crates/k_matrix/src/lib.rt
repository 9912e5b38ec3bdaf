// SPDX-FileCopyrightText: 2026 The PPVM Authors
// SPDX-License-Identifier: Apache-2.0

// The matrix K of a Kossakowski form by itself: its entries and the pairs that they make, the lengths
// of what is given with it, and a product laid after K.
#![tactic(auto)]

pub mod lengths;
pub mod matrix;
pub mod scaled;
