ghost use Rattle.std.specs.Prelude.{◌≡◌};
ghost use Rattle.reg_entry.specs.Decision.{refuse_if};

use crate::{Handle, Kind, Status};
use num_range::{Number, Range};
use std::fmt;

/// Why a request is refused. Of several reasons the first in this order is given.
#[derive(Clone, Copy, PartialEq, Eq)]
pub enum Refusal {
    /// The line isn't in the desk language. The place counts its bytes from 1.
    Malformed { place: u32 },
    /// The policy names no such hostmaster.
    UnknownHostmaster,
    /// The number is outside the pool, or can't be pooled.
    OutsidePool { number: Number },
    /// The range isn't inside one piece, or not the whole of it; or the number begins no piece, or begins one.
    NotOnePiece { piece: Range },
    /// The piece has this status, which isn't one that the request needs.
    WrongStatus { status: Status },
    /// No holder has this handle.
    UnknownHolder { handle: Handle },
    /// The piece's holder is this one and not the one named.
    NotHolder { holder: Handle },
    /// A holder has the handle already.
    HandleTaken,
    /// The range has numbers that are taken already, and this is the least.
    Overlap { number: Number },
    /// No sub-assignment has exactly this range.
    NoSub,
    /// No reverse entry has exactly this range.
    NoReverse,
    /// The two pieces have different cards. This is the left one.
    CardsDiffer { left: Range },
    /// The policy allows amounts from the least to the most.
    LengthOutOfPolicy { least: u32, most: u32 },
    /// The policy leaves holders of this kind out.
    HolderKind { kind: Kind },
    /// The holder would hold so many numbers of the space, and the policy's cap is this.
    OverCap { held: u128, cap: u128 },
    /// Of so many allocated numbers the holder has sub-assigned these, which is too few by the policy.
    UnderUsed { used: u128, held: u128 },
    /// The piece can't be transferred before this day.
    HoldTime { until: u32 },
    /// The piece's quarantine lasts up to this day.
    NotDue { until: u32 },
    /// So many sub-assignments lie in the piece.
    HasSubs { count: u32 },
    /// The sub-assignment or reverse entry of this range would be cut.
    Straddled { range: Range },
    /// There is no aligned available block of the size.
    NoBlock,
    /// AS numbers have no reverse names.
    NoReverseSpace,
    /// There would be more pieces than there is room for.
    RegisterFull { pieces: u32, room: u32 },
    /// There are as many holders as there is room for.
    HoldersFull { room: u32 },
    /// There are as many entries as there is room for.
    JournalFull { entries: u64 },
    /// There are as many sub-assignments as there is room for.
    SubsFull { room: u32 },
    /// There are as many reverse entries as there is room for.
    ReverseFull { room: u32 },
}

impl Refusal {
    fn name(&self) -> &'static str {
        match self {
            Refusal::Malformed { .. } => "Malformed",
            Refusal::UnknownHostmaster => "UnknownHostmaster",
            Refusal::OutsidePool { .. } => "OutsidePool",
            Refusal::NotOnePiece { .. } => "NotOnePiece",
            Refusal::WrongStatus { .. } => "WrongStatus",
            Refusal::UnknownHolder { .. } => "UnknownHolder",
            Refusal::NotHolder { .. } => "NotHolder",
            Refusal::HandleTaken => "HandleTaken",
            Refusal::Overlap { .. } => "Overlap",
            Refusal::NoSub => "NoSub",
            Refusal::NoReverse => "NoReverse",
            Refusal::CardsDiffer { .. } => "CardsDiffer",
            Refusal::LengthOutOfPolicy { .. } => "LengthOutOfPolicy",
            Refusal::HolderKind { .. } => "HolderKind",
            Refusal::OverCap { .. } => "OverCap",
            Refusal::UnderUsed { .. } => "UnderUsed",
            Refusal::HoldTime { .. } => "HoldTime",
            Refusal::NotDue { .. } => "NotDue",
            Refusal::HasSubs { .. } => "HasSubs",
            Refusal::Straddled { .. } => "Straddled",
            Refusal::NoBlock => "NoBlock",
            Refusal::NoReverseSpace => "NoReverseSpace",
            Refusal::RegisterFull { .. } => "RegisterFull",
            Refusal::HoldersFull { .. } => "HoldersFull",
            Refusal::JournalFull { .. } => "JournalFull",
            Refusal::SubsFull { .. } => "SubsFull",
            Refusal::ReverseFull { .. } => "ReverseFull",
        }
    }

    /// This refusal, where its condition holds.
    pub fn when(self, condition: bool) -> Option<Refusal>
        ensures { result ≡ refuse_if condition self }
    {
        if condition { Some(self) } else { None }
    }
}

/// The name alone: the values are told by a reply's text.
impl fmt::Debug for Refusal {
    fn fmt<W: fmt::Write>(&self, f: &mut fmt::Formatter<W>) -> fmt::Result {
        f.write_str(self.name())
    }
}
