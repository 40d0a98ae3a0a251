// No code: the second engine and the tables agree, by the laws in specs/. What it answers is what looking up answers in every table that the calls leave.
#![tactic(auto)]
