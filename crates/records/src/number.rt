// Numbers.
ghost use Rattle.std.specs.Prelude.{◌≡◌, ◌<◌, ◌≤◌, length, IfSome};
ghost use Rattle.records.specs.Limits.{most_digits};
ghost use Rattle.records.specs.Numbers.{digit, digits, leads_with_zero, number};

const MOST_DIGITS: usize = 5;

// What a digit is worth.
fn digit(byte: u8) -> Option<u32>
    ensures worth { result ≡ digit byte }
    ensures small { IfSome result (λ d. d < 10) }
{
    if byte < b'0' || byte > b'9' {
        return None;
    }
    Some((byte - b'0') as u32)
}

fn digits(field: &[u8]) -> Option<u32>
    requires { length field.now ≤ most_digits }
    ensures { result ≡ digits 0 field.now }
{
    let mut number = 0;
    for byte in field {
        number = 10 * number + digit(*byte)?;
    }
    Some(number)
}

fn leads_with_zero(field: &[u8]) -> bool
    ensures { result ≡ leads_with_zero field.now }
{
    field.len() > 1 && field[0] == b'0'
}

// The number that a field writes: at most five digits, with no leading zero.
pub fn number(field: &[u8]) -> Option<u32>
    ensures { result ≡ number field.now }
{
    if field.is_empty() || field.len() > MOST_DIGITS || leads_with_zero(field) {
        return None;
    }
    digits(field)
}
