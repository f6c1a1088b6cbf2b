// The terms on one page, specs/Terms.antt: a function for each of our calls, with any arguments, that promises what stands there. Nobody calls these. They
// stand in the gate, and are proved from the promises of the calls alone.
#![tactic(auto)]

pub mod bursts;
pub mod cards;
pub mod edges;
pub mod receivers;
pub mod senders;
