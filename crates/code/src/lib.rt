// No code: the definitions that a reader must believe, and the theorems about them, stand in specs/.
#![tactic(auto)]
