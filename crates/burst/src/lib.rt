// What the controller firmware calls: whole bursts of frames, a card written out, and the standard cards.
#![tactic(auto)]

mod one_parity_receive;
mod one_parity_send;
mod parities;
pub mod receive;
mod registers;
pub mod send;
mod sender;
pub mod write;
