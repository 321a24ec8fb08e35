//! A host and a port.

ghost use Rattle.std.specs.Prelude.{◌≡◌, ◌==◌, Some, option_map, position};
ghost use Rattle.std.specs.List.{list_all};
ghost use Rattle.desk_config.specs.Address.{address_of, address_text, host_of, is_host_byte, is_loopback};
ghost use Rattle.dialect.specs.Split.{parts_round};

use crate::within::Within;
use desk_words::Printable;
use fix_tags::read_number;
use std::fmt;

/// The most bytes of a host.
pub const MAX_HOST: usize = 100;

/// The port of an address.
pub type Port = Within<1, 65_535>;

/// `HOST:PORT`: an IPv4 address or a name of letters, digits, `.` and `-`, of at most 100 bytes, and a port from 1 to
/// 65535. What a name stands for is asked when the address is dialled.
#[derive(Debug, PartialEq, Eq, Drop)]
pub struct Address {
    pub host: Printable<MAX_HOST>,
    pub port: Port,
}

fn is_host_byte(byte: u8) -> bool
    ensures { result ≡ is_host_byte byte }
{
    byte.is_ascii_alphanumeric() || byte == b'.' || byte == b'-'
}

fn are_host_bytes(text: &[u8]) -> bool
    ensures { result ≡ list_all is_host_byte text.now }
{
    text.iter().all(|byte| is_host_byte(*byte))
}

/// A host of 1 to 100 letters, digits, dots and dashes.
pub(crate) fn read_host(text: &[u8]) -> Option<Printable<MAX_HOST>>
    ensures { result ≡ host_of text.now }
{
    if !are_host_bytes(text) {
        return None;
    }
    Printable::new(text)
}

fn first_of(mark: u8, text: &[u8]) -> Option<usize>
    ensures { result ≡ position (λ c. c == mark) text.now }
{
    text.iter().position(|byte| *byte == mark)
}

/// What stands before the first of these bytes, and what behind it.
pub(crate) fn parts_at(mark: u8, text: &[u8]) -> Option<(&[u8], &[u8])>
    ensures { option_map (λ parts. (parts.0.now, parts.1.now)) result ≡ parts_round mark text.now }
{
    let at = first_of(mark, text)?;
    Some((&text[..at], &text[at + 1..]))
}

impl Address {
    /// The address that a text is.
    #[tactic(auto, unfolding(crate::specs::Address::address_of))]
    pub fn new(text: &[u8]) -> Option<Address>
        ensures { result ≡ address_of text.now }
    {
        let (host, port) = parts_at(b':', text)?;
        let host = read_host(host)?;
        let port = Port::new(read_number(port)?)?;
        Some(Address { host, port })
    }

    /// Whether only this machine can reach it: the host is `127.0.0.1`.
    pub fn is_loopback(&self) -> bool
        ensures { result ≡ is_loopback self.now }
    {
        self.host.as_bytes() == b"127.0.0.1".as_slice()
    }
}

impl fmt::Display for Address {
    ghost output = { λ address. Some (address_text address) };

    fn fmt<W: fmt::Write>(&self, f: &mut fmt::Formatter<W>) -> fmt::Result {
        let host = &self.host;
        let port = self.port;
        write!(f, "{host}:{port}")
    }
}
