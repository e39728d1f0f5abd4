//! A caller of each library, which its page CALLING.md shows: what follows from the library's contracts.

mod locked;
mod packet;
mod ring;

ghost use Rattle.std.specs.Prelude.{◌≤◌};

use clk_locked::Locked;
use clk_packet::{Fault, Kind, Packet};

// The packet of this number from sender 1, of 1 to 65,535 bytes.
fn from_one(number: u32, length: u16) -> Packet
    requires { 1 ≤ length }
{
    Packet {
        number,
        sender: 1,
        length,
    }
}

#[test]
fn a_sender_has_its_packets(rt: HostRuntime) -> Result<(), Fault> {
    let count = packet::packets_of(rt.alloc(), b"1,1500\n2,64\n1,40\n", 1)?;
    assert_eq!(rt; count, 2);
    Ok(())
}

#[test]
fn the_newer_packet_comes_out(rt: HostRuntime) -> Result<(), Fault> {
    let got = ring::newest(rt.alloc(), from_one(0, 10), from_one(1, 20))?;
    assert_eq!(rt; got, Some(from_one(1, 20)));
    Ok(())
}

#[test]
fn the_packet_of_an_offer_is_refused(rt: HostRuntime) -> Result<(), Fault> {
    let queue = Locked::new(rt.alloc(), Kind::TailDrop, 1)?;
    let offers = [from_one(0, 10), from_one(1, 20)];
    let refused = offers.map(|packet| locked::refused_of(&rt, &queue, packet));
    assert_eq!(rt; refused, [None, Some(from_one(1, 20))]);
    Ok(())
}
