// SPDX-FileCopyrightText: 2026 The PPVM Authors
// SPDX-License-Identifier: Apache-2.0

// Entries of a square matrix as a text in the Matrix Market form, in a lent table of bytes.
#![tactic(auto)]

pub mod count;
mod decimal;
pub mod write;
