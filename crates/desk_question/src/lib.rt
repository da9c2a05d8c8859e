// The desk's question as octets: what a question is, which one is refused, what a response says for one,
// and the line that the program writes. Definitions and laws: specs/ has them all. The code that
// answers is in crates desk_case and desk_line.

#![tactic(auto)]
