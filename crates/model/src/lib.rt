#![tactic(auto)]

// The rules as definitions that compute, and their theorems; they stand in specs/.
