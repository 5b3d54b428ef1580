// The cases that document 01 marks to be proved, and those of document 02: one table and one theorem for all, and no code.

#![tactic(auto)]
