//! The holders of a load, numbered from 0 to 7.
ghost use Rattle.std.specs.Prelude.{◌≡◌, ◌<◌};
ghost use Rattle.load_gen.specs.Holders.{load_handle, load_holder};

use reg_entry::{Cc, Handle, Holder, Kind, Text};

/// The handle of a holder.
#[tactic(auto, using(std::proofs::lemmas::Fmt::decimal_digit))]
pub fn handle(i: u8) -> Handle
    requires { i < 8 }
    ensures { result ≡ load_handle i }
{
    let mut bytes = *b"ORG-L0";
    bytes[5] += i;
    Handle::read(&bytes).unwrap()
}

/// The name of a holder in full.
#[tactic(auto, using(std::proofs::lemmas::Fmt::decimal_digit))]
fn name(i: u8) -> Text
    requires { i < 8 }
    ensures { result ≡ (load_holder i).name }
{
    let mut bytes = *b"Load 0";
    bytes[5] += i;
    Text::read(&bytes).unwrap()
}

pub fn holder(i: u8) -> Holder
    requires { i < 8 }
    ensures { result ≡ load_holder i }
{
    Holder {
        handle: handle(i),
        kind: Kind::Lir,
        cc: Cc::read(b"DE").unwrap(),
        name: name(i),
        email: Text::read(b"load@load.example").unwrap(),
    }
}
