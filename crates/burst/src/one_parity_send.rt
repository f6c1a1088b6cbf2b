// Sending under a card with one parity stream, as most have. There is no history: one register has the parity digits to come, its lowest that of
// the frame at hand.
ghost use Rattle.std.specs.Prelude.{◌≤◌};

use crate::registers::information;
use crate::sender::Sender;

// The sums are lent: beside a table the register would stay in memory.
#[derive(Clone, Copy)]
pub(crate) struct OneParity<'a> {
    pub sums: &'a [u32; 16],
    pub k: usize,
    pub coming: u32,
    ghost k_most: { k ≤ 4 },
}

impl<'a> Sender for OneParity<'a> {
    ghost use Rattle.burst.specs.Sent.{ReadyWith};

    ghost Ready = { λ c input t s. ReadyWith c input t s.sums.now s.k s.coming };

    fn frame(&mut self, info: u8) -> u8 {
        let info = information(info, self.k);
        let parities = self.coming ^ self.sums[info as usize];
        self.coming = parities >> 1;
        (info + (parities % 2 << self.k)) as u8
    }
}
