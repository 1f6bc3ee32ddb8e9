// Reads a call list in document 01's own notation, as `0(4096,256,8192,64) 14(1,4096) 8(1,20)`, one call after the other.
// Text and place stay two parameters: of a cursor that moves, each contract would have to say too that its text stays, and where it then stands.
#![tactic(auto)]

ghost use Rattle.std.specs.Prelude.{◌≡◌, ◌≤◌, min, Some, drop, length, take_while};
ghost use Rattle.std.specs.List.{prefix_len};
ghost use Rattle.texts.specs.Decimal.{is_digit, value};
ghost use Rattle.notation.specs.Numbers.{number_at};
ghost use Rattle.notation.specs.Told.{fault_told};
ghost use Rattle.notation.specs.Notation.{is_blank, past_blanks, after_byte, ends, argument, closed, arguments, call_at, written};

use std::error::Error;
use std::fmt;
use texts::COUNTS;

// What stands at a place of the text is no call: the place where it goes wrong.
#[derive(Clone, Copy, Debug, PartialEq, Eq)]
pub struct Fault {
    pub place: usize,
}

impl fmt::Display for Fault {
    ghost output = { λ fault. Some (fault_told fault) };

    fn fmt<W: fmt::Write>(&self, f: &mut fmt::Formatter<W>) -> fmt::Result {
        write!(f, "bad text at byte {}", self.place)
    }
}

impl Error for Fault {}

// A call with its numbers, 0 for those that it lacks, and the place after it.
// It stands by its code, and not as call_list's record: these are the text's own numbers, as record_bytes writes them, and notation does not stand on call_list.
#[derive(Clone, Copy)]
pub struct Call {
    pub code: u8,
    pub numbers: [u32; 4],
    pub next: usize,
}

// The first number that has no place in a record.
const ABOVE: u64 = 4294967296;

const LAST_CODE: u32 = 15;

// The next call from a place on, or none where only blanks are left.
#[tactic(auto, unfolding(crate::specs::Notation::written))]
pub fn read(text: &[u8], place: usize) -> Result<Option<Call>, Fault>
    ensures { result ≡ written text.now place }
{
    let at = past_blanks(text, place);
    if text.len() <= at {
        return Ok(None);
    }
    Ok(Some(call_at(text, at)?))
}

// The first place from `place` on that holds no blank.
#[tactic(auto, unfolding(crate::specs::Notation::past_blanks))]
fn past_blanks(text: &[u8], place: usize) -> usize
    ensures { result ≡ past_blanks text.now place }
{
    place + blank_count(rest_at(text, place))
}

// The text from a place on, and nothing behind its end.
fn rest_at(text: &[u8], at: usize) -> &[u8]
    ensures { result.now ≡ drop at text.now }
{
    text.get(at..).unwrap_or_default()
}

// How many blanks a text begins with.
fn blank_count(text: &[u8]) -> usize
    ensures count { result ≡ prefix_len is_blank text.now }
    ensures within { result ≤ length text.now }
{
    text.iter().take_while(|b| is_blank(**b)).count()
}

fn is_blank(b: u8) -> bool
    ensures { result ≡ is_blank b }
{
    b == b' ' || b == b'\t' || b == b'\n' || b == b'\r'
}

// The call that begins at a place.
#[tactic(auto, unfolding(crate::specs::Notation::call_at, crate::specs::Notation::opened))]
fn call_at(text: &[u8], at: usize) -> Result<Call, Fault>
    ensures { result ≡ call_at text.now at }
{
    let (code, next) = number_at(text, at)?;
    if LAST_CODE < code {
        return Err(Fault { place: at });
    }
    let first = after_byte(text, next, b'(')?;
    arguments(text, code as u8, first)
}

// The rest of the call whose arguments begin at a place.
#[tactic(auto, unfolding(crate::specs::Notation::arguments))]
fn arguments(text: &[u8], code: u8, at: usize) -> Result<Call, Fault>
    requires { code ≤ 15 }
    ensures { result ≡ arguments text.now code at }
{
    let count = COUNTS[code as usize];
    let (a, at) = argument(text, count, 0, at)?;
    let (b, at) = argument(text, count, 1, at)?;
    let (c, at) = argument(text, count, 2, at)?;
    let (d, at) = argument(text, count, 3, at)?;
    let next = closed(text, at)?;
    Ok(Call {
        code,
        numbers: [a, b, c, d],
        next,
    })
}

// The argument with `earlier` others in front of it, of `count` in all, from the end of those on, and the place after it. One that the call lacks is 0 and no text.
#[tactic(auto, unfolding(crate::specs::Notation::argument))]
fn argument(text: &[u8], count: u8, earlier: u8, at: usize) -> Result<(u32, usize), Fault>
    ensures { result ≡ argument text.now count earlier at }
{
    if count <= earlier {
        return Ok((0, at));
    }
    if earlier == 0 {
        return number_at(text, at);
    }
    let first = after_byte(text, at, b',')?;
    number_at(text, first)
}

// The place after the call that is closed at a place.
#[tactic(auto, unfolding(crate::specs::Notation::closed))]
fn closed(text: &[u8], at: usize) -> Result<usize, Fault>
    ensures { result ≡ closed text.now at }
{
    let next = after_byte(text, at, b')')?;
    if !ends(text, next) {
        return Err(Fault { place: next });
    }
    Ok(next)
}

// The place after a byte that has to stand at a place.
#[tactic(auto, unfolding(crate::specs::Notation::after_byte, crate::specs::Notation::stands))]
fn after_byte(text: &[u8], at: usize, b: u8) -> Result<usize, Fault>
    ensures { result ≡ after_byte text.now at b }
{
    if text.get(at).is_some_and(|found| *found == b) {
        Ok(at + 1)
    } else {
        Err(Fault { place: at })
    }
}

// A call may end before a place: a blank stands there, or nothing.
#[tactic(auto, unfolding(crate::specs::Notation::ends))]
fn ends(text: &[u8], at: usize) -> bool
    ensures { result ≡ ends text.now at }
{
    text.get(at).is_none_or(|b| is_blank(*b))
}

// The number whose digits begin at a place, and the place after it.
#[tactic(auto, unfolding(crate::specs::Numbers::number_at))]
fn number_at(text: &[u8], at: usize) -> Result<(u32, usize), Fault>
    ensures { result ≡ number_at text.now at }
{
    let (value, count) = digits(rest_at(text, at));
    if count == 0 {
        return Err(Fault { place: at });
    }
    let number = u32::try_from(value).map_err(|_| Fault { place: at })?;
    Ok((number, at + count))
}

// The value of the digits that a text begins with, or `ABOVE` where that is less, and how many they are.
fn digits(text: &[u8]) -> (u64, usize)
    ensures value { result.0 ≡ min (value (take_while is_digit text.now)) 4294967296 }
    ensures count { result.1 ≡ length (take_while is_digit text.now) }
    ensures within { result.1 ≤ length text.now }
{
    let mut value: u64 = 0;
    let mut count: usize = 0;
    for b in text {
        if !b.is_ascii_digit() {
            break;
        }
        value = (10 * value + u64::from(b - b'0')).min(ABOVE);
        count += 1;
    }
    (value, count)
}
