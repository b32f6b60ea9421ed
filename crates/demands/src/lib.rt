// What the two finders owe together on one file: demand 3 is stated in specs/ and proved in proofs/. There is no code here.
#![tactic(auto)]
