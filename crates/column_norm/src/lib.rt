// SPDX-FileCopyrightText: 2026 The PPVM Authors
// SPDX-License-Identifier: Apache-2.0

// Raw and diagonal of one column of the generator, and the norms of all.
#![tactic(auto)]

pub mod basis;
pub mod column;
pub mod norms;
