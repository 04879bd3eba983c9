// The three demands of the mission, of what a call leaves: specs/Demand1, Demand2 and Demand3 say them, proofs/Demand1, Demand2 and Demand3 prove them of
// whatever meets the contracts of `poisson` and `field_call`; and 01's cheats are shut out (proofs/Cheats). No program needs it, so no function stands here,
// and the call's code is checked without it.

#![tactic(auto)]
