// Histories of opening, stepping and collecting, and what holds after every one of them. There is
// no code here, only definitions and proofs.
#![tactic(auto)]
