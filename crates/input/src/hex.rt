// Bytes written as hexadecimal pairs.
ghost use Rattle.std.specs.Prelude.{◌≡◌, ◌<◌, ◌≤◌, true, length, take, drop, IfSome, Some, None};
ghost use Rattle.input.specs.Hex.{Converts, Small, bytes_from, hex_value, is_hex, step_of};

// The value of a hexadecimal digit, in upper or lower case.
#[tactic(auto, unfolding(crate::specs::Hex::hex_value))]
pub fn hex_digit(c: u8) -> Option<u8>
    ensures value { result ≡ hex_value c }
    ensures small { IfSome result (λ d. d < 16) }
{
    match c {
        b'0'..=b'9' => Some(c - b'0'),
        b'A'..=b'F' => Some(c - b'A' + 10),
        b'a'..=b'f' => Some(c - b'a' + 10),
        _ => None,
    }
}

// What one character more of a text of pairs does.
#[derive(Clone, Copy)]
pub(crate) enum Step {
    // no byte yet; the high digit of a pair, if one is begun
    Open(Option<u8>),
    // a pair is whole
    Byte(u8),
}

// Reads the character `c`, after the high digit of a pair or after none. `None`: no text of pairs has it there.
fn read_character(high: Option<u8>, c: u8) -> Option<Step>
    requires { IfSome high (λ d. d < 16) }
    ensures value { result ≡ step_of high c }
    ensures small { IfSome result Small }
{
    match (high, hex_digit(c)) {
        (None, None) => (c == b' ').then_some(Step::Open(None)),
        (None, digit) => Some(Step::Open(digit)),
        (Some(_), None) => None,
        (Some(first), Some(second)) => Some(Step::Byte(first * 16 + second)),
    }
}

// Whether a text has nothing but pairs and spaces between them.
pub(crate) fn is_hexadecimal(text: &[u8]) -> bool
    ensures { result ≡ is_hex text.now }
{
    let mut high = None;
    // a loop, since a `try_fold` over two kinds of step is no plainer
    for c in text {
        let Some(step) = read_character(high, *c) else {
            return false;
        };
        high = match step {
            Step::Open(digit) => digit,
            Step::Byte(_) => None,
        };
    }
    high.is_none()
}

// Puts the bytes that a text spells into the front of the text itself, which is never shorter.
pub(crate) fn convert(text: &mut [u8]) -> usize
    requires { is_hex text.old ≡ true }
    ensures bytes { bytes_from text.old None ≡ Some (take result text.new) }
    ensures rest { drop result text.new ≡ drop result text.old }
    ensures within { result ≤ length text.old }
{
    let mut count = 0;
    let mut high = None;
    // By index: the bytes go into the text that is being read, so that no memory is asked.
    for i in 0..text.len() {
        match read_character(high, text[i]).unwrap() {
            Step::Open(digit) => high = digit,
            Step::Byte(byte) => {
                text[count] = byte;
                count += 1;
                high = None;
            }
        }
    }
    count
}

// Puts the bytes that a text of hexadecimal pairs spells into the front of the text, and answers their count.
// Any other text is left as it is.
#[tactic(auto, using(crate::proofs::Spelling::spelled, crate::proofs::Spelling::stray, crate::proofs::Spelling::stray_value))]
pub fn read_pairs(text: &mut [u8]) -> Option<usize>
    ensures { Converts text.old result text.new }
{
    if !is_hexadecimal(text) {
        return None;
    }
    Some(convert(text))
}
