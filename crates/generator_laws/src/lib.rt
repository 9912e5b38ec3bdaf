// SPDX-FileCopyrightText: 2026 The PPVM Authors
// SPDX-License-Identifier: Apache-2.0

// What the generator and the matrix by rows say of a model and a basis is proved in proofs/: both hold the
// same entries, every row has ascending columns, a growing basis changes no entry between old words, and
// which words have an entry in their row. Nothing here runs.
#![tactic(auto)]
