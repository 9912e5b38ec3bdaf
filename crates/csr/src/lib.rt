// SPDX-FileCopyrightText: 2026 The PPVM Authors
// SPDX-License-Identifier: Apache-2.0

// A lent matrix by rows: offsets, columns and values. Its rows read, and its product with a vector.
#![tactic(auto)]

pub mod check;
pub mod product;
pub mod reader;
pub mod rows;
pub mod sums;
pub mod work;
