// SPDX-FileCopyrightText: 2026 The PPVM Authors
// SPDX-License-Identifier: Apache-2.0

// What leakage lists is proved in proofs/: pass by pass, that the largest stay and how many, that a raised
// limit or a lowered tau_add loses nobody, and which words are listed. Nothing here runs.
#![tactic(auto)]
