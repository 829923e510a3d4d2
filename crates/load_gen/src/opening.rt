//! The requests that a load begins with.
ghost use Rattle.std.specs.Prelude.{◌≡◌, ◌<◌, Some, slice_get};
ghost use Rattle.load_gen.specs.Opening.{opening_requests};

use crate::holders::holder;
use num_range::{Range, Space};
use reg_entry::Request;

/// How many requests a load begins with.
pub const OPENING_REQUESTS: u8 = 11;

/// A request that a load begins with. All are made on the first day.
pub fn opening_request(i: u8) -> Request
    requires { i < 11 }
    ensures { slice_get opening_requests i ≡ Some result }
{
    match i {
        0 => Request::Receive {
            range: Range::between(Space::Ipv4, 0x0a00_0000, 0x0aff_ffff),
        },
        1 => Request::Receive {
            range: Range::between(Space::Ipv6, 0x2001_0db8 << 96, (0x2001_0db9 << 96) - 1),
        },
        2 => Request::Receive {
            range: Range::between(Space::Asn, 64512, 65534),
        },
        _ => Request::AddHolder {
            holder: holder(i - 3),
        },
    }
}
