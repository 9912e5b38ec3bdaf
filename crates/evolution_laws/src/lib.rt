// SPDX-FileCopyrightText: 2026 The PPVM Authors
// SPDX-License-Identifier: Apache-2.0

// What an accepted evolution says is proved in proofs/: it multiplies the matrix by rows of the same model and
// basis, and takes m times s products. Nothing here runs.
#![tactic(auto)]
