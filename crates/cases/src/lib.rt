// The worked cases of document 01, shown for the definitions: specs/Cases.antt has the table, proofs/Worked.antt the one statement.
#![tactic(auto)]
