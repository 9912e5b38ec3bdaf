// SPDX-FileCopyrightText: 2026 The PPVM Authors
// SPDX-License-Identifier: Apache-2.0

// The rules of a tested model for many words: an index of its items by qubit, made once, and the rules by
// the items alone that share a qubit with a word.
#![tactic(auto)]

pub mod indexed;
pub mod near;
