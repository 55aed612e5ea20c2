// The bytes of sense data, and the sense of a power condition: from key and codes. No unit is needed.
#![tactic(auto)]

ghost use Rattle.std.specs.Prelude.{◌≡◌};
ghost use Rattle.senses.specs.Senses.{sense_bytes, by_cause, ascq_of, power_sense};

use conditions::{Cause, Condition, Power};

// Sense key, additional sense code and its qualifier.
#[derive(Clone, Copy, PartialEq, Eq)]
pub struct Sense {
    pub key: u8,
    pub asc: u8,
    pub ascq: u8,
}

// The 18 bytes of fixed format sense data.
pub fn sense_bytes(deferred: bool, s: Sense) -> [u8; 18]
    ensures { result ≡ sense_bytes deferred s }
{
    let code = if deferred { 0x71 } else { 0x70 };
    [
        code, 0, s.key, 0, 0, 0, 0, 0x0A, 0, 0, 0, 0, s.asc, s.ascq, 0, 0, 0, 0,
    ]
}

// The two columns of the 5Eh codes.
fn by_cause(why: Cause, timer: u8, command: u8) -> u8
    ensures { result ≡ by_cause why timer command }
{
    match why {
        Cause::Timer => timer,
        Cause::Command => command,
    }
}

// The additional sense code qualifier of a low power condition (08-184; Standby_y from SPC-4).
fn ascq_of(c: Condition, why: Cause) -> u8
    ensures { result ≡ ascq_of c why }
{
    match c {
        Condition::IdleA => by_cause(why, 0x01, 0x03),
        Condition::IdleB => by_cause(why, 0x05, 0x06),
        Condition::IdleC => by_cause(why, 0x07, 0x08),
        Condition::StandbyY => by_cause(why, 0x09, 0x0A),
        Condition::StandbyZ => by_cause(why, 0x02, 0x04),
    }
}

// What REQUEST SENSE tells of the condition when no sense is held.
pub fn sense_of_power(p: Power) -> Sense
    ensures { result ≡ power_sense p }
{
    match p {
        Power::Active => Sense {
            key: 0,
            asc: 0x00,
            ascq: 0x00,
        },
        Power::Low(c, why) => Sense {
            key: 0,
            asc: 0x5E,
            ascq: ascq_of(c, why),
        },
    }
}
