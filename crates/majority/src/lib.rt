// Massey's majority rule on whole streams, by either of his circuits (specs/Rule.antt, specs/SecondCircuit.antt), and the theorem that a correctable stream
// comes out as sent (proofs/Theorem.antt). Nothing here runs: the crates above decide on registers, as the rule does.
#![tactic(auto)]
