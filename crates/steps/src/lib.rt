// Where a new circuit goes, what a host does with the records of the moves, and how a circuit is closed: steps 1 to 3 of document 01 as
// definitions, and their laws. The code is in `survey`, `pairs` and `plan`.

#![tactic(auto)]
