// SPDX-FileCopyrightText: 2026 The PPVM Authors
// SPDX-License-Identifier: Apache-2.0

// The action of a lent model on a word, with its tests and its list.
#![tactic(auto)]

pub mod act;
pub mod count;
pub mod list;
pub mod words;
