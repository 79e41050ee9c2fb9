// Demand 3 as a theorem: the two layouts agree. specs/Agrees.antt says what that is, proofs/Agree.antt shows it once over any layout that is
// fed once (proofs/Complete.antt of the map), and proofs/Calls.antt of the definitions that the calls' contracts cite. There is no code here:
// `agree` runs it.

#![tactic(auto)]
