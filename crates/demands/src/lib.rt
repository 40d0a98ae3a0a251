// No function: what the user asked for, as statements over the definitions that the calls' promises cite. specs/Lib.antt is the index.
#![tactic(auto)]
