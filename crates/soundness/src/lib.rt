// What acceptance means: paths through a code, and the theorem between them and the examination.
// There is no code here, only definitions and proofs.
#![tactic(auto)]
