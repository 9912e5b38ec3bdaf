// SPDX-FileCopyrightText: 2026 The PPVM Authors
// SPDX-License-Identifier: Apache-2.0

// Lent tables: words with complex sums beside them, in word order. The layers above see a list of
// rows and never a flat slice.
#![tactic(auto)]

pub mod numbers;
pub mod sums;
