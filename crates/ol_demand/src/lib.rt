// That the demands hold of what the public functions answered and wrote: definitions (specs/) and theorems (proofs/) only, no code.
#![tactic(auto)]
