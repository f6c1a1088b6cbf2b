// What the controller firmware links: the calls of `burst` for C, as include/burst.h declares them.
#![tactic(auto)]

ghost use Rattle.std.specs.Prelude.{◌≡◌};
ghost use Rattle.outcomes.specs.Outcome.{outcome};
ghost use Rattle.outcomes.specs.Sending.{send_of};
ghost use Rattle.outcomes.specs.Receiving.{receive_of};
ghost use Rattle.outcomes.specs.Claims.{ComesOutAsSent};
ghost use Rattle.writer.specs.Outcome.{write_of};
ghost use Rattle.writer.specs.Claims.{CarriesOn};
ghost use Rattle.standard.specs.Standard.{standard_of, StandardCards};

// Sends a whole burst: the count of output frames, information and tail, or minus the refusal. Only that many bytes of the output are written,
// and a refused call writes none.
#[unsafe(no_mangle)]
pub extern "C" fn burst_send(card: &[u8], input: &[u8], output: &mut [u8]) -> i32
    ensures { outcome result output.new ≡ send_of card.now input.now output.old }
{
    burst::send::burst_send(card, input, output)
}

// Receives a whole burst: the count of frames handed out, or minus the refusal. Only that many bytes of the output are written, and a refused
// call writes none.
#[unsafe(no_mangle)]
pub extern "C" fn burst_receive(card: &[u8], input: &[u8], output: &mut [u8]) -> i32
    ensures output_after { outcome result output.new ≡ receive_of card.now input.now output.old }
    ensures comes_out_as_sent { ComesOutAsSent card.now input.now output.old result output.new }
{
    burst::receive::burst_receive(card, input, output)
}

// Writes the card that the bytes state: the count of bytes, or minus the refusal. Only that many bytes of the output are written, and a refused
// call writes none.
#[unsafe(no_mangle)]
pub extern "C" fn card_write(card: &[u8], output: &mut [u8]) -> i32
    ensures output_after { outcome result output.new ≡ write_of card.now output.old }
    ensures carries_on { CarriesOn card.now output.old result output.new }
{
    burst::write::card_write(card, output)
}

// Writes the standard card with this many checks: the count of bytes, 0 where there is no such card, or minus 13 where the output is too short.
// Only that many bytes of the output are written, and a refused call writes none.
#[unsafe(no_mangle)]
pub extern "C" fn standard_card(checks: u32, output: &mut [u8]) -> i32
    ensures output_after { outcome result output.new ≡ standard_of checks output.old }
    ensures standard_cards { StandardCards }
{
    burst::write::standard_card(checks, output)
}
