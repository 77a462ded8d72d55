// An answer as document 01 tells it; the definitions and their laws stand in specs/.
#![tactic(auto)]
