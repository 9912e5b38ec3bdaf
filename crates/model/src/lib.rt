// SPDX-FileCopyrightText: 2026 The PPVM Authors
// SPDX-License-Identifier: Apache-2.0

// Models in lent tables: what stands in them, and whether a lent one is sound.
#![tactic(auto)]

pub mod stored;
pub mod term;
pub mod test;
