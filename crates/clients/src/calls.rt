// Clients of the promises of the sessions' calls.
ghost use Rattle.std.specs.Prelude.{◌≡◌, Ok, Some};
ghost use Rattle.card.specs.Outcome.{outcome_of};
ghost use Rattle.card.specs.Outcome.Outcome.{accepted};
ghost use Rattle.decoder.specs.Receive.{first_circuit};
ghost use Rattle.digit_decoder.specs.Example.{AnswersOfP};
ghost use Rattle.digit_decoder.specs.Receive.{second_circuit};
ghost use Rattle.receiving.specs.Example.{ReceivesP, ReceivesFaintP, ReceivesT};
ghost use Rattle.receiving.specs.Readings.{frame_yield_of, yields};
ghost use Rattle.encoder.specs.Example.{SendsP};
ghost use Rattle.clients.specs.Closed.{ReceivesNothing, SendsNothing};

use crate::cards::{P, T};
use card::{Opened, Refusal};
use receiving::{Frame, Reading};

// A receiver of P: the third term, the rule and the answers, for lists of calls, and that they are those of before where no level lies close to zero.
pub fn p_receives() -> Opened<decoder::Session>
    ensures { (outcome_of result.verdict ≡ accepted) × ReceivesP first_circuit result.session × ReceivesFaintP first_circuit result.session }
{
    decoder::open(&P)
}

// A receiver of T, whose information is on two streams.
pub fn t_receives() -> Opened<decoder::Session>
    ensures { ReceivesT first_circuit result.session }
{
    decoder::open(&T)
}

// A sender of P: the code's frames, for lists of calls.
pub fn p_sends() -> Opened<encoder::Session>
    ensures { (outcome_of result.verdict ≡ accepted) × SendsP result.session }
{
    encoder::open(&P)
}

// The first 19 bytes of P, refused: the session takes nothing, ..
pub fn short_p_receives() -> Opened<decoder::Session>
    ensures { ReceivesNothing first_circuit result }
{
    decoder::open(&P[..19])
}

// .. and sends nothing.
pub fn short_p_sends() -> Opened<encoder::Session>
    ensures { SendsNothing result }
{
    encoder::open(&P[..19])
}

// The link figure of P after 3 as a byte and 3 as readings, whose information digit came wrong.
pub fn p_figure() -> u32
    ensures { result ≡ 1 }
{
    let mut session = decoder::open(&P).session;
    let _ = session.receive_byte(7, 3);
    let _ = session.receive_readings(7, [Reading::Level(1.0); 8]);
    decoder::link_figure(&session)
}

// The tail of P after the information 1.
pub fn p_tail() -> Result<u8, Refusal>
    ensures { result ≡ Ok 2 }
{
    let mut session = encoder::open(&P).session;
    session.send(1)?;
    session.send_tail()
}

// The second circuit has rows of its own: a row over both circuits would call `receiving::open`, and apply the promise of neither `decoder::open` nor
// `digit_decoder::open`.

// A receiver of P by the second circuit: the same for its rule, and the first circuit's answers call by call.
pub fn p_receives_by_digits() -> Opened<digit_decoder::Session>
    ensures { (outcome_of result.verdict ≡ accepted) × ReceivesP second_circuit result.session × ReceivesFaintP second_circuit result.session × AnswersOfP result.session }
{
    digit_decoder::open(&P)
}

pub fn t_receives_by_digits() -> Opened<digit_decoder::Session>
    ensures { ReceivesT second_circuit result.session }
{
    digit_decoder::open(&T)
}

pub fn short_p_receives_by_digits() -> Opened<digit_decoder::Session>
    ensures { ReceivesNothing second_circuit result }
{
    digit_decoder::open(&P[..19])
}

// The answer of P to 3 as readings, after 3 as a byte: the frame of time 0.
pub fn p_answers_by_digits() -> Result<Option<u8>, Refusal>
    ensures { result ≡ Ok (Some 1) }
{
    let mut session = digit_decoder::open(&P).session;
    session.receive_byte(7, 3)?;
    session.receive_readings(7, [Reading::Level(1.0); 8])
}

// 0.25 and its neighbours below and above, and minus each, as the readings of six streams: the two neighbours towards zero are erased. What comes after
// the sixth is not looked at.
pub fn quarters_are_read() -> Result<Frame, Refusal>
    ensures { frame_yield_of result ≡ yields 0b101 0b10010 }
{
    receiving::read_frame(
        [
            Reading::Level(0.25),
            Reading::Level(0.24999999),
            Reading::Level(0.25000003),
            Reading::Level(-0.25),
            Reading::Level(-0.24999999),
            Reading::Level(-0.25000003),
            Reading::Level(0.0f32 / 0.0f32),
            Reading::Erased,
        ],
        6,
    )
}
