//! The values of the words of a line.
ghost use Rattle.std.specs.Prelude.{◌≡◌, ◌≤◌, true, IfOk, IfSome};
ghost use Rattle.addr_text.specs.Reading.{number_of, range_of};
ghost use Rattle.reg_entry.specs.Cc.{is_cc};
ghost use Rattle.reg_entry.specs.Days.{last_date, day_of_text};
ghost use Rattle.reg_entry.specs.Handle.{is_handle};
ghost use Rattle.reg_entry.specs.Host.{is_host};
ghost use Rattle.reg_entry.specs.Name.{is_name};
ghost use Rattle.reg_entry.specs.Text.{is_text};
ghost use Rattle.reg_entry.specs.Request.{has_size};
ghost use Rattle.desk_lang.specs.declared.rest.Form.TheVariants.{Plain, Quoted};
ghost use Rattle.desk_lang.specs.Words.{next_value};
ghost use Rattle.desk_lang.specs.Values.{label_of, kind_of, space_of, delegation_of, length_of, amount_of};

use crate::rest::{Form, Malformed, Rest};
use addr_text::{read_decimal, read_number, read_range};
use num_range::{Number, Range, Space};
use reg_entry::{Cc, Delegation, Handle, Host, Kind, Name, Text, read_day};

/// A kind of holders.
fn read_kind(word: &[u8]) -> Option<Kind>
    ensures { result ≡ kind_of word.now }
{
    if word == b"lir".as_slice() {
        Some(Kind::Lir)
    } else if word == b"enduser".as_slice() {
        Some(Kind::EndUser)
    } else {
        None
    }
}

fn read_space(word: &[u8]) -> Option<Space>
    ensures { result ≡ space_of word.now }
{
    if word == b"asn".as_slice() {
        Some(Space::Asn)
    } else if word == b"ipv4".as_slice() {
        Some(Space::Ipv4)
    } else if word == b"ipv6".as_slice() {
        Some(Space::Ipv6)
    } else {
        None
    }
}

/// The status of a delegation.
fn read_delegation(word: &[u8]) -> Option<Delegation>
    ensures { result ≡ delegation_of word.now }
{
    if word == b"allocated".as_slice() {
        Some(Delegation::Allocate)
    } else if word == b"assigned".as_slice() {
        Some(Delegation::Assign)
    } else {
        None
    }
}

/// A prefix length behind `/`.
fn read_length(word: &[u8]) -> Option<u32>
    ensures { result ≡ length_of word.now }
{
    match word {
        [b'/', len @ ..] => read_decimal(len),
        _ => None,
    }
}

/// A count of AS numbers, or the prefix length of a block.
fn read_amount(space: Space, word: &[u8]) -> Option<u32>
    ensures value { result ≡ amount_of space word.now }
    ensures sized { IfSome result (λ amount. has_size space amount ≡ true) }
{
    let amount = match space {
        Space::Asn => read_decimal(word)?,
        Space::Ipv4 | Space::Ipv6 => read_length(word)?,
    };
    if !space.has_size(amount) {
        return None;
    }
    Some(amount)
}

impl<'a> Rest<'a> {
    pub fn range(&self) -> Result<(Range, Rest<'a>), Malformed>
        ensures { result ≡ next_value Plain range_of self.now }
    {
        let word = self.next_word(Form::Plain)?;
        let range = read_range(word.bytes());
        word.value(range)
    }

    pub fn number(&self) -> Result<(Number, Rest<'a>), Malformed>
        ensures { result ≡ next_value Plain number_of self.now }
    {
        let word = self.next_word(Form::Plain)?;
        let number = read_number(word.bytes());
        word.value(number)
    }

    pub fn handle(&self) -> Result<(Handle, Rest<'a>), Malformed>
        ensures { result ≡ next_value Plain (label_of is_handle) self.now }
    {
        let word = self.next_word(Form::Plain)?;
        let handle = Handle::read(word.bytes());
        word.value(handle)
    }

    pub fn cc(&self) -> Result<(Cc, Rest<'a>), Malformed>
        ensures { result ≡ next_value Plain (label_of is_cc) self.now }
    {
        let word = self.next_word(Form::Plain)?;
        let cc = Cc::read(word.bytes());
        word.value(cc)
    }

    pub fn host(&self) -> Result<(Host, Rest<'a>), Malformed>
        ensures { result ≡ next_value Plain (label_of is_host) self.now }
    {
        let word = self.next_word(Form::Plain)?;
        let host = Host::read(word.bytes());
        word.value(host)
    }

    pub fn name(&self) -> Result<(Name, Rest<'a>), Malformed>
        ensures { result ≡ next_value Plain (label_of is_name) self.now }
    {
        let word = self.next_word(Form::Plain)?;
        let name = Name::read(word.bytes());
        word.value(name)
    }

    /// A text between quotes.
    pub fn text(&self) -> Result<(Text, Rest<'a>), Malformed>
        ensures { result ≡ next_value Quoted (label_of is_text) self.now }
    {
        let word = self.next_word(Form::Quoted)?;
        let text = Text::read(word.bytes());
        word.value(text)
    }

    pub fn day(&self) -> Result<(u32, Rest<'a>), Malformed>
        ensures value { result ≡ next_value Plain day_of_text self.now }
        ensures dated { IfOk result (λ day. (1 ≤ day.0) × (day.0 ≤ last_date)) }
    {
        let word = self.next_word(Form::Plain)?;
        let day = read_day(word.bytes());
        word.value(day)
    }

    pub fn kind(&self) -> Result<(Kind, Rest<'a>), Malformed>
        ensures { result ≡ next_value Plain kind_of self.now }
    {
        let word = self.next_word(Form::Plain)?;
        let kind = read_kind(word.bytes());
        word.value(kind)
    }

    pub fn space(&self) -> Result<(Space, Rest<'a>), Malformed>
        ensures { result ≡ next_value Plain space_of self.now }
    {
        let word = self.next_word(Form::Plain)?;
        let space = read_space(word.bytes());
        word.value(space)
    }

    pub fn amount(&self, space: Space) -> Result<(u32, Rest<'a>), Malformed>
        ensures value { result ≡ next_value Plain (amount_of space) self.now }
        ensures sized { IfOk result (λ amount. has_size space amount.0 ≡ true) }
    {
        let word = self.next_word(Form::Plain)?;
        let amount = read_amount(space, word.bytes());
        word.value(amount)
    }

    pub fn delegation(&self) -> Result<(Delegation, Rest<'a>), Malformed>
        ensures { result ≡ next_value Plain delegation_of self.now }
    {
        let word = self.next_word(Form::Plain)?;
        let delegation = read_delegation(word.bytes());
        word.value(delegation)
    }
}
