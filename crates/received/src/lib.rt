// A deck received from an input, in room that the program has.
#![tactic(auto)]

ghost use Rattle.std.specs.Prelude.{◌≡◌, ◌≤◌, length, IfOk, OnErr};
ghost use Rattle.input.specs.Begun.{Begun};
ghost use Rattle.received.specs.Deck.{Deck};

use paper::Refusal;
use std::io;
use std::io::Read;

// The bytes before the deck, which are its notes, and the numbers of its table.
#[derive(Clone, Copy)]
pub struct Received {
    pub notes: usize,
    pub numbers: usize,
}

// Reads an input to its end, or as far as there is room, and the deck that ends there into the front of the table.
pub fn deck<R: Read>(
    from: &mut R,
    bytes: &mut [u8],
    table: &mut [u32],
) -> io::Result<Result<Received, Refusal>>
    ensures deck { IfOk result (λ r. Deck (R.remaining from.old) (R.remaining from.new) bytes.new table.old table.new r) }
    ensures within { IfOk result (λ r. IfOk r (λ d. (d.notes ≤ length bytes.new) × (d.numbers ≤ length table.new))) }
    ensures err { OnErr result (Begun (R.remaining from.old) (R.remaining from.new) bytes.new × (table.new ≡ table.old)) }
{
    let n = input::fill(from, &mut bytes[..])?;
    match reading::part(&bytes[..n], table) {
        Ok(part) => Ok(Ok(Received {
            notes: n - part.len(),
            numbers: part.len() / 42 * 6,
        })),
        Err(why) => Ok(Err(why)),
    }
}
