//! How an answer reads: the tables of names, and the text of an operand, an instruction and a line.
#![tactic(auto)]
