// SPDX-FileCopyrightText: 2026 The PPVM Authors
// SPDX-License-Identifier: Apache-2.0

// What prune, cap and admission keep is proved in proofs/: the flagged entries stay, a raised limit or a
// lowered threshold loses nobody, the counts are exact, and the larger go first. Nothing here runs.
#![tactic(auto)]
