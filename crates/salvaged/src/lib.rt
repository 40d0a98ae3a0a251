// No function: what salvage gives back, as statements over the definitions that its promise cites. specs/Lib.antt is the index.
#![tactic(auto)]
