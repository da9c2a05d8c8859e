// What is promised: theorems alone, on top of all other crates. There is no function here, and nothing
// depends on it. Each theorem is stated in full and proved by a citation; they are read in this order.
//
//   OneReading             one reading, one string of octets
//   Answers, Refusals      good, revoked and unknown exactly when; each refusal exactly when; nothing old
//   OneCard                nothing about another card
//   Shown, Requests, Slips, Walk, Desk     the signed part; what is written; the walk; the program's line
//   CacheForm, CacheAsk, CacheRefusals, CacheFile, CacheOthers, CacheCheck, CacheDepositor   the room's cache
//   Claims, Marked         M1 to M12, one theorem over a list of them
//
// That the code meets its contracts, and that every public contract settles its result and its buffers,
// is in crate contracts. docs/PROMISES.md has each promise in plain words beside its name.

#![tactic(auto)]
