// No function: what comes back from a file, as statements over the definitions that the promises cite. specs/Lib.antt is the index.
#![tactic(auto)]
