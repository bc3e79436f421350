// The abstract heap, lists of calls, and demand 3. No code of its own.
#![tactic(auto)]
