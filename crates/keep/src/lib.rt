// SPDX-FileCopyrightText: 2026 The PPVM Authors
// SPDX-License-Identifier: Apache-2.0

// What a basis forgets and takes in: entries kept in their order, by flags.
#![tactic(auto)]

pub mod admit;
pub mod choose;
pub mod flags;
pub mod largest;
pub mod nth;
pub mod retain;
