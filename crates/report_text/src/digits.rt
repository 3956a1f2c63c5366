//! The digits of bytes, written in one go.
ghost use Rattle.std.specs.Prelude.{◌≡◌, ◌<◌, ◌*◌, length, flat_map};
ghost use Rattle.report_text.specs.Names.{hex_digit, byte_text};

/// The first number whose digit is a letter.
const FIRST_LETTER: u8 = 10;

/// How far the letters stand behind the digits of the numbers below ten.
const LETTERS_BEHIND: u8 = b'a' - b'0' - FIRST_LETTER;

// The digit of a number below 16, in lower case. It is reckoned, and not looked up in a table, so
// that the compiler writes many at a time.
fn digit(number: u8) -> u8
    requires { number < 16 }
    ensures { result ≡ hex_digit number }
{
    let behind = if number < FIRST_LETTER {
        0
    } else {
        LETTERS_BEHIND
    };
    b'0' + number + behind
}

/// Writes two digits for each byte, the high four bits first.
pub fn write_digits(bytes: &[u8], out: &mut [u8])
    requires { length out.old ≡ 2 * length bytes.now }
    ensures { out.new ≡ flat_map byte_text bytes.now }
{
    for i in 0..bytes.len() {
        let byte = bytes[i];
        out[2 * i] = digit(byte / 16);
        out[2 * i + 1] = digit(byte % 16);
    }
}
