// The known points that document 01 marks (P): a table in specs/ and its one proof. No code: known_points runs the others.
#![tactic(auto)]
