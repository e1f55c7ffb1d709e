// No code: theorems over the pipettor's calls.
#![tactic(auto)]
