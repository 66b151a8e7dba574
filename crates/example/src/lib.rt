// The example day of the scope document. All of it is in specs/: its text, and what is proved of it.
#![tactic(auto)]
