// The receiving session of Massey's first circuit: frames in, frames out, by his majority rule with feedback. What it does with a frame takes the card's
// tables by reference and changes the registers where they stand, since what was just stored word by word is slow to copy.
#![tactic(auto)]

mod registers;

ghost use Rattle.std.specs.Prelude.{◌≡◌, ◌≤◌};
ghost use Rattle.vote.specs.Voters.{decide_marked};
ghost use Rattle.decoder.specs.Held.{fed_back};
ghost use Rattle.decoder.specs.Opening.{OpenPromise};
ghost use Rattle.decoder.specs.Receive.{first_holding, link_figure_of};

use card::Opened;
use code::erased::Erased;
use code::{Card, Sizes};
use receiving::{Frame, Receives};

// What a session holds of the frames that it took.
#[derive(Clone, Copy)]
pub struct Held {
    pub history: [u32; 4], // bit a of register i: information digit i of the frame a before the last one received
    pub syndromes: [u32; 8], // bit a of register j: the syndrome of parity stream j, a after the frame that is decided next
    pub erased: Erased,
}

pub type Session = receiving::Session<Held>;

// Reads the card. A refused opening hands out a session with the empty card that refuses every call.
// Not one with the other circuit's: each promises the claims of its own (`OpenPromise`).
pub fn open(card: &[u8]) -> Opened<Session>
    ensures { OpenPromise card.now result }
{
    receiving::open(card)
}

impl Receives for Held {
    ghost holding = { first_holding };

    fn nothing() -> Held {
        Held {
            history: [0; 4],
            syndromes: [0; 8],
            erased: Erased {
                registers: [0; 8],
                any: 0,
            },
        }
    }

    // Its information digits, and the syndromes that they and its parity digits give.
    #[tactic(auto, unfolding(crate::specs::Held::held_with_frame, crate::specs::Held::with_syndromes))]
    fn put_in(&mut self, card: &Card, place: usize, frame: Frame) {
        let sizes = card.sizes();
        let digits = u32::from(frame.digits);
        code::put_history(&mut self.history, sizes.k, digits);
        let new = code::syndromes(&card.generators, &self.history, sizes.k, sizes.p, digits);
        code::put_digits(&mut self.syndromes, new, place);
        self.erased.put(u32::from(frame.erased), place);
    }

    #[tactic(auto, unfolding(crate::specs::Held::next_held, crate::specs::Receive::errors_of))]
    fn hand_out(&mut self, card: &Card) -> u8 {
        let sizes = card.sizes();
        let wrong = errors(
            &card.generators,
            &card.counts,
            &card.checks,
            &self.syndromes,
            &self.erased,
            sizes,
        );
        feed_back(&mut self.syndromes, &card.generators, sizes, wrong);
        self.erased.move_on();
        registers::corrected(&self.history, wrong, sizes.k, sizes.m)
    }
}

// The decided errors of the frame that is decided next. While no syndrome held is 1 there is no vote.
fn errors<'a>(
    generators: &'a [u32],
    counts: &'a [u32],
    checks: &'a [u32],
    syndromes: &[u32; 8],
    erased: &Erased,
    sizes: Sizes,
) -> u32
    requires { sizes.p ≤ 8 }
    ensures { result ≡ decide_marked generators.now counts.now checks.now syndromes.now erased.now.registers erased.now.any sizes }
{
    if syndromes[..sizes.p].iter().all(|word| *word == 0) {
        return 0;
    }
    vote::decide_marked(
        generators,
        counts,
        checks,
        syndromes,
        &erased.registers,
        erased.any,
        sizes,
    )
}

// Takes the decided errors out of the syndromes, and moves these on to the next frame.
#[tactic(auto, unfolding(crate::specs::Held::fed_back))]
fn feed_back(syndromes: &mut [u32], generators: &[u32], sizes: Sizes, errors: u32)
    ensures { syndromes.new ≡ fed_back generators.now syndromes.old sizes errors }
{
    let changes = code::feedback(generators, sizes.k, sizes.p, errors);
    code::add_words(syndromes, &changes);
    code::move_on(syndromes);
}

// The link figure: the count of ones in the syndromes that the session still holds.
#[tactic(auto, unfolding(crate::specs::Receive::link_figure_of))]
pub fn link_figure(s: &Session) -> u32
    ensures { result ≡ link_figure_of s.now }
{
    registers::ones(&s.held.syndromes, s.card.sizes().p)
}
