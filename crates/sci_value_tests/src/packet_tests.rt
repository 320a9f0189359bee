//! That the table of packets is the one that is meant, by packets written out by hand.

ghost use Rattle.std.specs.Prelude.{◌<◌, ◌^◌};

use byteorder::{BigEndian, ByteOrder};
use sci_packets::*;
use sci_words::{Line, Stamped};
use std::process::Abort;
use std::test::*;

const NONE: u64 = 0xFFFF;

fn node(number: u16) -> Result<NodeId, Fail> {
    Ok(NodeId::new(number).ok_or("the number of a node")?)
}

/// The words as bytes, the highest first.
fn bytes_of(words: &[u64; 11]) -> [u8; 88] {
    let mut bytes = [0; 88];
    BigEndian::write_u64_into(words, &mut bytes);
    bytes
}

/// Contents of version 9 with the words 0x0102030405060708, 2 to 8.
fn contents() -> Stamped {
    let mut line = Line::zero().with(0, 0x0102_0304_0506_0708);
    for (place, word) in [(1, 2), (2, 3), (3, 4), (4, 5), (5, 6), (6, 7), (7, 8)] {
        line = line.with(place, word);
    }
    Stamped { line, version: 9 }
}

/// A header of these two words, and contents of zero words at version 0.
fn zeros(first: u64, second: u64) -> [u64; 11] {
    let mut words = [0; 11];
    words[0] = first;
    words[1] = second;
    words
}

/// A header of these two words, and contents of version 1 with 7 as their first word.
fn one_seven(first: u64, second: u64) -> [u64; 11] {
    let mut words = zeros(first, second);
    words[2] = 1;
    words[3] = 7;
    words
}

/// The words of a packet with those contents, whose header these two are.
fn long(first: u64, second: u64) -> [u64; 11] {
    [first, second, 9, 0x0102_0304_0506_0708, 2, 3, 4, 5, 6, 7, 8]
}

/// Each body with the two words of its header, from node 2 to node 1, control 3, line 5.
fn table() -> Result<[(Body, u64, u64); 19], Fail> {
    Ok([
        (Body::Mread, 0x0001_0001_0002_0003, 0x0140_FFFF),
        (Body::Cread, 0x0001_0002_0002_0003, 0x0140_FFFF),
        (Body::Purge, 0x0001_0003_0002_0003, 0x0140_FFFF),
        (
            Body::Roll {
                forward: Some(node(7)?),
            },
            0x0001_0004_0002_0003,
            0x0140_0007,
        ),
        (Body::Wback(contents()), 0x0001_0005_0002_0003, 0x0140_FFFF),
        (
            Body::Setback { backward: node(7)? },
            0x0001_0006_0002_0003,
            0x0140_0007,
        ),
        (Body::Fread, 0x0001_0007_0002_0003, 0x0140_FFFF),
        (Body::Claim, 0x0001_0008_0002_0003, 0x0140_FFFF),
        (Body::Clear, 0x0001_0009_0002_0003, 0x0140_FFFF),
        (Body::Mdata(contents()), 0x0001_0101_0002_0003, 0x0140_FFFF),
        (
            Body::Mgone { old_head: node(7)? },
            0x0001_0102_0002_0003,
            0x0140_0007,
        ),
        (Body::Cdata(contents()), 0x0001_0103_0002_0003, 0x0140_FFFF),
        (
            Body::Purged {
                forward: Some(node(7)?),
            },
            0x0001_0104_0002_0003,
            0x0140_0007,
        ),
        (Body::Rolled, 0x0001_0105_0002_0003, 0x0140_FFFF),
        (Body::Wbok, 0x0001_0106_0002_0003, 0x0140_FFFF),
        (Body::Wbno, 0x0001_0107_0002_0003, 0x0140_FFFF),
        (Body::Told, 0x0001_0108_0002_0003, 0x0140_FFFF),
        (Body::Busy, 0x0001_0109_0002_0003, 0x0140_FFFF),
        (
            Body::Fdata {
                old_head: Some(node(7)?),
                contents: contents(),
            },
            0x0001_010A_0002_0003,
            0x0140_0007,
        ),
    ])
}

/// A packet with this body from one node to another.
fn packet(from: u16, to: u16, control: u16, line: u64, body: Body) -> Result<Packet, Fail>
    requires { line < 2 ^ 42 }
{
    Ok(Packet {
        target: node(to)?,
        source: node(from)?,
        control,
        line,
        body,
    })
}

fn has_contents(body: &Body) -> bool {
    matches!(
        body,
        Body::Wback(_) | Body::Mdata(_) | Body::Cdata(_) | Body::Fdata { .. }
    )
}

/// That the packet has these first words and no more, in both directions over words and bytes.
fn both_ways(rt: &impl Abort, packet: Packet, words: &[u64; 11], count: usize) {
    let mut written = [0xAAAA_AAAA_AAAA_AAAA; 11];
    assert_eq!(rt; to_words(&packet, &mut written), count, "{packet:?}");
    let mut encoded = [0xAA; 88];
    assert_eq!(rt; encode(&packet, &mut encoded), 8 * count, "{packet:?}");
    for (place, word) in words.iter().enumerate() {
        if place >= count {
            assert_eq!(rt; written[place], 0xAAAA_AAAA_AAAA_AAAA);
        } else {
            assert_eq!(rt; written[place], *word, "word {place} of {packet:?}");
        }
    }
    for (place, byte) in bytes_of(words).iter().enumerate() {
        if place >= 8 * count {
            assert_eq!(rt; encoded[place], 0xAA);
        } else {
            assert_eq!(rt; encoded[place], *byte, "byte {place} of {packet:?}");
        }
    }
    assert_eq!(rt; from_words(words), Ok((packet, count)));
    assert_eq!(rt; decode(&bytes_of(words)), Ok((packet, 8 * count)));
}

/// That the words and their bytes are refused so.
fn refused(rt: &impl Abort, first: u64, second: u64, fault: PacketFault) {
    let words = long(first, second);
    assert_eq!(rt; from_words(&words), Err(fault), "{first:#x} {second:#x}");
    assert_eq!(rt;
        decode(&bytes_of(&words)),
        Err(fault),
        "{first:#x} {second:#x}"
    );
}

#[test]
fn packets(rt: HostRuntime) -> Result<(), Fail> {
    let mread = packet(1, 0, 0, 0, Body::Mread)?;
    let first = 0x0000_0001_0001_0000;
    let words = zeros(first, NONE);
    both_ways(&rt, mread, &words, 2);
    let bytes = bytes_of(&words);
    assert_eq!(rt; decode(&bytes[..16]), Ok((mread, 16)));
    assert_eq!(rt; decode(&bytes[..15]), Err(PacketFault::Short));
    refused(&rt, first, 0x0001_FFFF, PacketFault::BadOffset);
    refused(
        &rt,
        0x0000_0000_0001_0000,
        NONE,
        PacketFault::UnknownCommand,
    );
    refused(&rt, first, 0, PacketFault::BadIdentifier);
    let mgone = packet(0, 1, 2, 3, Body::Mgone { old_head: node(0)? })?;
    let words = zeros(0x0001_0102_0000_0002, 0x00C0_0000);
    both_ways(&rt, mgone, &words, 2);
    Ok(())
}

#[test]
fn mdata_and_fdata(rt: HostRuntime) -> Result<(), Fail> {
    let mdata = Body::Mdata(Stamped {
        line: Line::zero().with(0, 7),
        version: 1,
    });
    let words = one_seven(0x0001_0101_0000_FFFF, 0x0040_FFFF);
    both_ways(&rt, packet(0, 1, 65535, 1, mdata)?, &words, 11);
    let fdata = Body::Fdata {
        old_head: Some(node(0)?),
        contents: Stamped {
            line: Line::zero(),
            version: 0,
        },
    };
    let words = zeros(0x0001_010A_0000_0002, 0x00C0_0000);
    both_ways(&rt, packet(0, 1, 2, 3, fdata)?, &words, 11);
    Ok(())
}

#[test]
fn decode_faults(rt: HostRuntime) {
    let words = one_seven(0x0001_0101_0000_FFFF, 0x0040_FFFF);
    assert_eq!(rt; decode(&bytes_of(&words)[..16]), Err(PacketFault::Short));
    assert_eq!(rt; from_words(&words[..2]), Err(PacketFault::Short));
    let words = one_seven(0x0001_0101_0000_FFFF, 0x0041_FFFF);
    assert_eq!(rt;
        decode(&bytes_of(&words)[..16]),
        Err(PacketFault::BadOffset)
    );
    assert_eq!(rt; from_words(&words[..2]), Err(PacketFault::BadOffset));
}

#[test]
fn every_command(rt: HostRuntime) -> Result<(), Fail> {
    for (body, first, second) in table()? {
        let packet = packet(2, 1, 3, 5, body)?;
        let count = if has_contents(&body) { 11 } else { 2 };
        both_ways(&rt, packet, &long(first, second), count);
        let answers = first & 0x0100_0000_0000 != 0;
        assert_eq!(rt; packet.is_request(), !answers, "{body:?}");
        assert_eq!(rt; body.is_request(), !answers, "{body:?}");
    }
    Ok(())
}

#[test]
fn identifiers_that_are_none(rt: HostRuntime) -> Result<(), Fail> {
    let contents = contents();
    let table = [
        (Body::Roll { forward: None }, 0x0001_0004_0002_0003, 2),
        (Body::Purged { forward: None }, 0x0001_0104_0002_0003, 2),
        (
            Body::Fdata {
                old_head: None,
                contents,
            },
            0x0001_010A_0002_0003,
            11,
        ),
    ];
    for (body, first, count) in table {
        let packet = packet(2, 1, 3, 5, body)?;
        both_ways(&rt, packet, &long(first, 0x0140_FFFF), count);
    }
    Ok(())
}

#[test]
fn every_fault_at_every_command(rt: HostRuntime) -> Result<(), Fail> {
    for (body, first, second) in table()? {
        refused(
            &rt,
            first ^ 0x0200_0000_0000,
            second,
            PacketFault::UnknownCommand,
        );
        refused(
            &rt,
            first ^ 0x0200_0000_0000,
            second ^ 0x0001_0000,
            PacketFault::UnknownCommand,
        );
        refused(&rt, first, second ^ 0x0001_0000, PacketFault::BadOffset);
        refused(
            &rt,
            first | 0xFFFF_0000_0000_0000,
            second ^ 0x0020_0000,
            PacketFault::BadOffset,
        );
        refused(
            &rt,
            first | 0xFFFF_0000_0000_0000,
            second,
            PacketFault::BadIdentifier,
        );
        refused(&rt, first | 0xFFFF_0000, second, PacketFault::BadIdentifier);
        let wrong = match body {
            Body::Roll { .. } | Body::Purged { .. } | Body::Fdata { .. } => continue,
            Body::Setback { .. } | Body::Mgone { .. } => [0x0140_FFFF, 0x0140_FFFF],
            _ => [0x0140_0000, 0x0140_FF00],
        };
        refused(&rt, first, wrong[0], PacketFault::BadIdentifier);
        refused(&rt, first, wrong[1], PacketFault::BadIdentifier);
    }
    Ok(())
}

#[test]
fn every_short_length(rt: HostRuntime) -> Result<(), Fail> {
    for (body, first, second) in table()? {
        let words = long(first, second);
        let count = if has_contents(&body) { 11usize } else { 2usize };
        for less in 0..count {
            assert_eq!(rt;
                from_words(&words[..less]),
                Err(PacketFault::Short),
                "{less} of {body:?}"
            );
        }
        let bytes = bytes_of(&words);
        for less in 0..8 * count {
            assert_eq!(rt;
                decode(&bytes[..less]),
                Err(PacketFault::Short),
                "{less} of {body:?}"
            );
        }
    }
    Ok(())
}

#[test]
fn answers_go_back(rt: HostRuntime) -> Result<(), Fail> {
    let packet = Packet {
        target: node(4)?,
        source: node(9)?,
        control: 77,
        line: 4_398_046_511_103,
        body: Body::Claim,
    };
    let answer = packet.answer(Body::Wbno);
    assert_eq!(rt; answer.target, packet.source);
    assert_eq!(rt; answer.source, packet.target);
    assert_eq!(rt; answer.control, 77);
    assert_eq!(rt; answer.line, packet.line);
    assert_eq!(rt; answer.body, Body::Wbno);
    Ok(())
}

#[test]
fn node_identifiers(rt: HostRuntime) {
    for (number, is_node) in [(0, true), (0xFF00, true), (0xFFFE, true), (0xFFFF, false)] {
        let id = NodeId::new(number);
        assert_eq!(rt; id.is_some(), is_node, "{number}");
        assert!(rt; id.is_none_or(|id| id.get() == number), "{number}");
    }
}
