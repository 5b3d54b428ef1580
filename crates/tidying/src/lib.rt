// Joining circuits that stand apart: document 02's tidying as definitions, round by round, and its laws. The code is in `rounds`.

#![tactic(auto)]
