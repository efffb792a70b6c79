// Module 6 of document 01: a position key read.
// Definitions: specs/Keys.antt. Laws: proofs/Keys.antt (big-endian numbers), proofs/Laws.antt.
#![tactic(auto)]

ghost use Rattle.std.specs.Prelude.{◌≡◌};
ghost use Rattle.position_key.specs.Keys.{position_of, position_answer};

use item_check::{Reason, Refusal, refuse};
use position_given::LogPosition;

// The position of a key: its 8 bytes, the first the greatest (01 m6.1, m6.2).
pub fn be_u64(key: &[u8]) -> Result<LogPosition, Refusal>
    ensures { position_of result ≡ position_answer key.now }
{
    let Ok(bytes) = <[u8; 8]>::try_from(key) else {
        return refuse(Reason::NoPosition, 0, 0);
    };
    Ok(LogPosition(u64::from_be_bytes(bytes)))
}
