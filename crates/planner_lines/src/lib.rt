// What each line of the planner's program does to the desk and prints, as definitions, and their laws. The code is in `saved_forms` and
// `planner`.

#![tactic(auto)]
