// SPDX-FileCopyrightText: 2026 The PPVM Authors
// SPDX-License-Identifier: Apache-2.0

// Pauli words: how they are stored, read, written, ordered and multiplied. The layers above see the
// promises made here and never a lane.
#![tactic(auto)]

pub mod algebra;
pub mod flat;
pub mod hash;
pub mod word;
