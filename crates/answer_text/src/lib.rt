// The text of an answer, written into a lent buffer at a place. Where it does not fit nothing is written.
#![tactic(auto)]

ghost use Rattle.std.specs.Prelude.{◌≡◌, ◌+◌, ◌<◌, ◌≤◌, ◌++◌};
ghost use Rattle.arrayvec.specs.ArrayString.{array_string_len};
ghost use Rattle.texts.specs.Buffer.{placed as written, end_of};
ghost use Rattle.answer_text.specs.Text.{word, answer_text, stop_text};

use arrayvec::ArrayString;

// Room for three numbers of ten digits, and a byte after each. `write!` would leave the promise open: its text is known only where it succeeds, and no clause says that it does.
type Text = ArrayString<33>;

// Three decimals with one space between and a line end. Hands back the place after the text, or none where it does not fit. The three numbers are no struct:
// one would be made and taken apart in a single place.
#[tactic(auto, unfolding(crate::specs::Text::answer_text))]
pub fn write_answer(
    buffer: &mut [u8],
    at: usize,
    code: u32,
    report: u32,
    value: u32,
) -> Option<usize>
    ensures { (buffer.new ≡ written at (answer_text code report value) buffer.old) × (result ≡ end_of at (answer_text code report value) buffer.old) }
{
    let mut text = Text::new();
    push(&mut text, code, ' ');
    push(&mut text, report, ' ');
    push(&mut text, value, '\n');
    texts::put(buffer, at, text.as_bytes())
}

// `stop N` with a line end. Hands back the place after the text, or none where it does not fit.
#[tactic(auto, unfolding(crate::specs::Text::stop_text))]
pub fn write_stop(buffer: &mut [u8], at: usize, offset: u32) -> Option<usize>
    ensures { (buffer.new ≡ written at (stop_text offset) buffer.old) × (result ≡ end_of at (stop_text offset) buffer.old) }
{
    let mut text = Text::new();
    text.push_str("stop ");
    push(&mut text, offset, '\n');
    texts::put(buffer, at, text.as_bytes())
}

// The number and the byte after it, behind the text.
#[tactic(auto, using(crate::specs::LibraryDigits::word_behind))]
fn push(text: &mut Text, n: u32, last: char)
    requires room { array_string_len text.old ≤ 22 }
    requires ascii { last < 128 }
    ensures bytes { text.new.bytes ≡ text.old.bytes ++ word n last }
    ensures length { array_string_len text.new ≤ array_string_len text.old + 11 }
{
    let mut digits = itoa::Buffer::new();
    text.push_str(digits.format(n));
    text.push(last);
}
