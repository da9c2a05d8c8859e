// What the contracts of public functions say. Theorems alone; there is no function here, and nothing
// depends on it.
//
//   Functions, Writers     the code: the main functions meet their contracts, and what that tells
//   CFunctions             the same of every function of desk_c: those of include/desk.h call them
//   Settled                what it is that a contract settles its result, and the one lemma that the
//                          others cite
//   SettledOctets, and those after it     every public contract settles its result and its buffers, a
//                          line for each function, crate by crate
//
// docs/EXCEPTIONS.md has what no contract settles.

#![tactic(auto)]
