// No code: the specimen table with 01's sample job and its sheet stands in specs/.
#![tactic(auto)]
