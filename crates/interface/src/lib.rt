// Demand 3 for six calls of include/arvadush.h, open, reading, withdraw, cut, uncut and statement: specs/Named.antt says that they are its steps.
#![tactic(auto)]
