// SPDX-FileCopyrightText: 2026 The PPVM Authors
// SPDX-License-Identifier: Apache-2.0

// Where a reached word stands: generator row, protected word outside the basis, or leakage entry. This
// crate has no code: its specs state it, its proofs show it.
#![tactic(auto)]
