// How far a colour can be off (document 02, request E9): what the averages of from RGBA cost, once the filter has undone them where it is
// applied. specs/Off.antt says it; proofs/Calls.antt shows it of what the from RGBA calls leave, by either matrix, in U and in V, and that no
// smaller number would do; proofs/Planes.antt of any plane of bytes that is averaged. There is no code here.

#![tactic(auto)]
