// The layout of an OCSP response (source document 002, section 4.2.1, with document 01's limits):
// what a response says, its octets, and its reading. Definitions and laws alone; the code that reads
// is in the crates above.

#![tactic(auto)]
