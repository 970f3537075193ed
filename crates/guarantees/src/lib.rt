// What is promised of runs of the exported calls; no functions: the statements are in specs/.
#![tactic(auto)]
