// What is true of a serial line: demand 3, its converse, what is lost, a stream in any cutting. Nothing runs here: `specs/` has the statements, `proofs/` why they hold.
#![tactic(auto)]
