// A record, good or bad, by its fields.
ghost use Rattle.std.specs.Prelude.{◌≡◌};
ghost use Rattle.telling.specs.Bytes.{bytes_of, IsRecord};

use numbers::{ANNOUNCE, NO_HOP, RECORD, WITHDRAW};
use std::fmt;
use std::net::Ipv4Addr;

// Whatever 8 bytes can stand in a list, so the action is a number here.
#[derive(Clone, Copy)]
pub struct RawRecord {
    pub address: u32,
    pub size: u8,
    pub action: u8,
    pub hop: u16,
}

pub fn record(address: u32, size: u8, action: u8, hop: u16) -> RawRecord
    ensures { IsRecord result address size action hop }
{
    RawRecord {
        address,
        size,
        action,
        hop,
    }
}

pub fn announce(address: u32, size: u8, hop: u16) -> RawRecord
    ensures { IsRecord result address size 1 hop }
{
    record(address, size, ANNOUNCE, hop)
}

pub fn withdraw(address: u32, size: u8) -> RawRecord
    ensures { IsRecord result address size 2 0 }
{
    // (`as`: there is no From from u32 to u16, and this is 0.)
    record(address, size, WITHDRAW, NO_HOP as u16)
}

impl RawRecord {
    // The record as it stands in a list.
    pub fn to_bytes(self) -> [u8; RECORD]
        ensures { result ≡ bytes_of self }
    {
        let [a, b, c, d] = self.address.to_be_bytes();
        let [high, low] = self.hop.to_be_bytes();
        [a, b, c, d, self.size, self.action, high, low]
    }
}

// The record whose bytes these are.
impl From<[u8; RECORD]> for RawRecord {
    ghost from_gives = { λ bytes r. bytes_of r ≡ bytes };

    fn from(bytes: [u8; RECORD]) -> RawRecord {
        let [a, b, c, d, size, action, high, low] = bytes;
        RawRecord {
            address: u32::from_be_bytes([a, b, c, d]),
            size,
            action,
            hop: u16::from_be_bytes([high, low]),
        }
    }
}

impl fmt::Display for RawRecord {
    fn fmt<W: fmt::Write>(&self, f: &mut fmt::Formatter<W>) -> fmt::Result {
        match self.action {
            ANNOUNCE => write!(f, "announce")?,
            WITHDRAW => write!(f, "withdraw")?,
            action => write!(f, "action {action}")?,
        }
        let address = Ipv4Addr::from(self.address);
        write!(f, " {address}/{} hop {}", self.size, self.hop)
    }
}
