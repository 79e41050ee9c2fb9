// The numbers worked by hand that are marked P (docs/RULES.md, R130 to R132, and limited range): one table (`worked` of specs/Worked.antt) and one
// theorem over it (`worked_right` of proofs/Right.antt), which says that the definitions which the contracts of the crates
// below cite give each line's numbers. The crate has no function. The lines with no P are run by the program `by_hand`.

#![tactic(auto)]
