//! Numbers in plain decimal: no sign, no leading zero.
ghost use Rattle.std.specs.Prelude.{◌≡◌};
ghost use Rattle.addr_text.specs.Reading.{decimal_up_to};
ghost use Rattle.command_words.specs.Command.{positive_up_to};

use addr_text::read_decimal;

/// The greatest port.
const MOST_PORT: u32 = 65_535;

/// The greatest number of workers of a door.
const MOST_WORKERS: u32 = 16;

/// The number up to a greatest one that the text is the decimal of.
pub(crate) fn read_number_up_to(text: &[u8], most: u32) -> Option<u32>
    ensures { result ≡ decimal_up_to most text.now }
{
    let number = read_decimal(text)?;
    if number > most {
        return None;
    }
    Some(number)
}

/// The number from 1 to a greatest one that the text is the decimal of.
fn read_positive_up_to(text: &[u8], most: u32) -> Option<u32>
    ensures { result ≡ positive_up_to most text.now }
{
    let number = read_number_up_to(text, most)?;
    if number == 0 {
        return None;
    }
    Some(number)
}

/// The port that the text is the decimal of; no door is at port 0.
pub(crate) fn read_port(text: &[u8]) -> Option<u16>
    ensures { result ≡ positive_up_to 65535 text.now }
{
    let port = read_positive_up_to(text, MOST_PORT)?;
    u16::try_from(port).ok()
}

/// The number of workers of a door that the text is the decimal of; a door has one at least.
pub(crate) fn read_workers(text: &[u8]) -> Option<u8>
    ensures { result ≡ positive_up_to 16 text.now }
{
    let workers = read_positive_up_to(text, MOST_WORKERS)?;
    u8::try_from(workers).ok()
}
