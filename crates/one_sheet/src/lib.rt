// No code: that a job has exactly one sheet, and that its parts come to the same, stands in specs/.
#![tactic(auto)]
