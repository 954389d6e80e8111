//! A number field: at most seven decimal digits, of which the first is 0 only where it is the only one.
#![tactic(auto)]

ghost use Rattle.std.specs.Prelude.{◌≡◌, ◌<◌, ◌≤◌, length};
ghost use Rattle.number.specs.Numbers.{numeral, more_digits, ReadsWritten, ReadsOnlyWritten};

// The number that the field writes, if it is one.
pub fn number_of(bytes: &[u8]) -> Option<u32>
    ensures { result ≡ numeral bytes.now }
{
    match bytes {
        [b'0'] => Some(0),
        [first @ b'1'..=b'9', rest @ ..] if rest.len() <= 6 => {
            digits_on(u32::from(*first - b'0'), rest)
        }
        _ => None,
    }
}

// The number whose first digit is `lead` and whose other digits are `rest`.
fn digits_on(lead: u32, rest: &[u8]) -> Option<u32>
    requires { (lead < 10) × (length rest.now ≤ 6) }
    ensures { result ≡ more_digits lead rest.now }
{
    let mut number = lead;
    // A loop and no `try_fold`: that the number fits is known only of all digits so far.
    for byte in rest {
        let digit = char::from(*byte).to_digit(10)?;
        number = number * 10 + digit;
    }
    Some(number)
}

// Every number of at most seven digits reads back from its digits, and no other text reads as it. It does nothing: the gate asks
// for the proof of its contract.
pub fn numerals_stand()
    ensures written { ReadsWritten }
    ensures only { ReadsOnlyWritten }
{}
