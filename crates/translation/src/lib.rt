// Turns a text of calls in document 01's notation into the records that the bench reads.
#![tactic(auto)]

ghost use Rattle.std.specs.Prelude.{◌≡◌, ◌≤◌, length, Some, IfOk};
ghost use Rattle.translation.specs.Translation.{refusal_told, translated};
ghost use Rattle.translation.specs.declared.Refused.TheVariants.{Wrong};

use notation::Fault;
use std::error::Error;
use std::fmt;

// Why a text is not turned into records: more calls than there is room for, or what is no call.
#[derive(Clone, Copy, Debug, PartialEq, Eq)]
pub enum Refused {
    TooMany,
    Wrong(Fault),
}

impl From<Fault> for Refused {
    ghost from_gives = { λ fault refused. refused ≡ Wrong fault };

    fn from(fault: Fault) -> Refused {
        Refused::Wrong(fault)
    }
}

impl fmt::Display for Refused {
    ghost output = { λ refused. Some (refusal_told refused) };

    fn fmt<W: fmt::Write>(&self, f: &mut fmt::Formatter<W>) -> fmt::Result {
        match self {
            Refused::TooMany => write!(f, "too many calls"),
            Refused::Wrong(found) => write!(f, "{found}"),
        }
    }
}

impl Error for Refused {}

// Writes the records of all calls of the text, one after the other, from the front of `records` on, and hands back how many bytes they are.
pub fn translate(text: &[u8], records: &mut [u8]) -> Result<usize, Refused>
    ensures outcome { record { outcome = result; records = records.new } ≡ translated text.now records.old }
    ensures within { IfOk result (λ end. end ≤ length records.new) }
{
    let mut place = 0;
    let mut end = 0;
    while let Some(call) = notation::read(text, place)? {
        let next = record_bytes::write_record(records, end, call.code, call.numbers);
        end = next.ok_or(Refused::TooMany)?;
        place = call.next;
    }
    Ok(end)
}
