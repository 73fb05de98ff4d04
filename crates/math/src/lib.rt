// No code: the mathematics that the other crates' laws rest on stands in specs/.
#![tactic(auto)]
