// Decimal numbers.
ghost use Rattle.std.specs.Prelude.{◌≡◌, ◌≤◌, IfOk};
ghost use Rattle.words.specs.Numbers.{numeral, natural, signed};

/// Why a word is not the number that is wanted.
#[derive(Clone, Copy, PartialEq, Eq)]
pub enum NumberFault {
    /// Something else than digits stands there, or no digit.
    NotANumber,
    DoesNotFit,
}

/// Whether the text is some digits, and nothing else.
fn is_numeral(text: &str) -> bool
    ensures { result ≡ numeral text.now }
{
    !text.is_empty() && text.bytes().all(|byte| byte.is_ascii_digit())
}

/// The number that a word of digits writes, if it is at most `max`.
pub fn number(text: &str, max: u64) -> Result<u64, NumberFault>
    ensures value { result ≡ natural max text.now }
    ensures bound { IfOk result (λ n. n ≤ max) }
{
    if !is_numeral(text) {
        return Err(NumberFault::NotANumber);
    }
    match text.parse::<u64>() {
        Ok(n) if n <= max => Ok(n),
        _ => Err(NumberFault::DoesNotFit),
    }
}

/// The number that a word of digits, or of a minus and digits, writes, if it has 64 bits with its sign.
pub fn integer(text: &str) -> Result<i64, NumberFault>
    ensures { result ≡ signed text.now }
{
    match text.strip_prefix('-') {
        Some(digits) => {
            let n = number(digits, 1 << 63)?;
            Ok((-(n as i128)) as i64)
        }
        None => Ok(number(text, i64::MAX as u64)? as i64),
    }
}
