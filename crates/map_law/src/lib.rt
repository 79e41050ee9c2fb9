// What the map of stale colour says of the calls that were made since its picture was: a theorem, no code. Start at specs/History.antt.

#![tactic(auto)]
