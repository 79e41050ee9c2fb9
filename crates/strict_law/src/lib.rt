// Demand 3 in the strict form (R95), of lists that the strict calls accept, and the strict calls in the list of accepted calls (R78): theorems over
// how the calls end. There is no code here; the laws over the clipping calls are agree_law's and map_law's, and an accepted strict call is the
// clipping call (strict/proofs/Laws.antt).

#![tactic(auto)]
