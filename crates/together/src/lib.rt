// Together is as one after another: a proof about operations on a shared state, made of single accesses, that tasks run interleaved.
// It asks of the operations only the laws of their footprints. There is no code here: specs/System.antt has the statements, proofs/ the proof.
#![tactic(auto)]
