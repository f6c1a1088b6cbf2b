// Clients of the public promises: what follows from each clause, for the cards and streams of document 01's bench, and the standard cards. Nobody
// calls these functions. They stand in the gate, so that a clause that is dropped or weakened, or whose condition nothing meets any more, breaks a proof.
#![tactic(auto)]

pub mod audits;
pub mod bursts;
pub mod calls;
pub mod cards;
pub mod checks;
pub mod edges;
pub mod listings;
pub mod rewritings;
pub mod runs;
pub mod sorted_checks;
pub mod standards;
pub mod written;
