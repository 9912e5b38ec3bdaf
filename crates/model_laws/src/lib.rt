// SPDX-FileCopyrightText: 2026 The PPVM Authors
// SPDX-License-Identifier: Apache-2.0

// What building, adding and testing a model promise together is proved in proofs/: a model that was
// built passes the test, so does one to which a matrix was added, and so does one that stands with
// more laid after it; in tables with room for all, no table decides the answer; of whole numbers,
// every number stored is exact. Nothing here runs.
#![tactic(auto)]
