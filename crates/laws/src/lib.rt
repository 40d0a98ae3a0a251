// No function: laws that every floor cites. specs/Lib.antt is the index.
#![tactic(auto)]
