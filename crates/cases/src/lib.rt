// The marked cases A to N of document 01. Nothing runs here: `specs/Table.antt` is the table, `proofs/MarkedCases.antt` shows that every row holds.
#![tactic(auto)]
