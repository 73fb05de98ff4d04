// No code: specs/ proves the specimen table of the code's rules.
#![tactic(auto)]
