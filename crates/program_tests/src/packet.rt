//! The output of `packet` for each packet number.
use crate::answers::{assert_fills, assert_prints_of};
use std::alloc::Global;
use std::process::Abort;
use std::test::Fail;
use ttx_packet::ham;

// Asserts the text for a packet with these digits, also if the output is too small.
fn assert_shows(rt: &(impl Abort + Alloc<A = Global>), digits: &str, text: &str) {
    let arguments = ["subttx", "packet", digits];
    assert_prints_of(rt, &arguments, &[], &[], text.as_bytes());
    assert_fills(rt, &arguments, (&[], &[]), &[], text.as_bytes());
}

#[rattlefmt::skip]
#[test]
fn shows_headers(rt: HostRuntime) {
    // The header of page 888 in parallel mode, in lower case and in upper case.
    assert_shows(&rt,
        "1515d0d015d015d002152020202020202020202020202020202020202020202020202020202020202020",
        "magazine 8 packet 0\npage 88 subcode 0000 control C4 C6 C7\n\
        text |                                |\n");
    assert_shows(&rt,
        "1515D0D015D015D002152020202020202020202020202020202020202020202020202020202020202020",
        "magazine 8 packet 0\npage 88 subcode 0000 control C4 C6 C7\n\
        text |                                |\n");
    // The header that ends other pages, in serial mode.
    assert_shows(&rt,
        "1515eaEAea2fEA5e15022020202020202020202020202020202020202020202020202020202020202020",
        "magazine 8 packet 0\npage FF subcode 3F7F control C11\n\
        text |                                |\n");
    // A header of page 100 with all control bits clear. Its text is Hi, an H of even parity, 7F and
    // 1F, and spaces.
    assert_shows(&rt,
        "02151515151515151515c8e9487f1f202020202020202020202020202020202020202020202020202020",
        "magazine 1 packet 0\npage 00 subcode 0000 control none\n\
        text |Hi?..                           |\n");
    // Headers with each control bit set, and with each bit of the subcode set.
    assert_shows(&rt,
        "1515d0d0eaeaeaeaeaea2020202020202020202020202020202020202020202020202020202020202020",
        "magazine 8 packet 0\n\
        page 88 subcode 3F7F control C4 C5 C6 C7 C8 C9 C10 C11 C12 C13 C14\n\
        text |                                |\n");
}

#[rattlefmt::skip]
#[test]
fn shows_rows_and_packets_above_them(rt: HostRuntime) {
    // Row 22 of magazine 8: double height, start box twice, Hi, end box twice.
    assert_shows(&rt,
        "159b202020202020202020202020202020200d0b0bc8e98a8a2020202020202020202020202020202020",
        "magazine 8 packet 22\ntext |                ...Hi..                 |\n");
    // Row 20 with a byte of even parity in the first and in the last column.
    assert_shows(&rt,
        "158ca0c8e92020202020202020202020202020202020202020202020202020202020202020202020c9a0",
        "magazine 8 packet 20\ntext |?Hi                                   ??|\n");
    // Row 21 with the codes 7E and 7F.
    assert_shows(&rt,
        "d08cfe7f7f7f7f7f7f7f7f7f7f7f7f7f7f7f7f7f7f7f7f7f7f7f7f7f7f7f7f7f7f7f7f7f7f7f7f7f7f7f",
        "magazine 8 packet 21\ntext |~.......................................|\n");
    // A packet X/26, whose contents are not printed.
    assert_shows(&rt,
        "15b620202020202020202020202020202020202020202020202020202020202020202020202020202020",
        "magazine 8 packet 26\n");
}

#[rattlefmt::skip]
#[test]
fn refuses_two_wrong_bits(rt: HostRuntime) {
    // Two wrong bits in the first address byte, in the second address byte, and in the page units.
    assert_shows(&rt,
        "1615d0d015d015d002152020202020202020202020202020202020202020202020202020202020202020",
        "refused 3 BadAddress\n");
    assert_shows(&rt,
        "1516d0d015d015d002152020202020202020202020202020202020202020202020202020202020202020",
        "refused 3 BadAddress\n");
    assert_shows(&rt,
        "151516d015d015d002152020202020202020202020202020202020202020202020202020202020202020",
        "refused 4 BadHeader\n");
}

// Asserts the output for the packet with this magazine and packet number, and text bytes A.
fn assert_shows_number(
    rt: &(impl Abort + Alloc<A = Global>),
    number: u8,
    magazine: u8,
) -> Result<(), Fail> {
    assert!(rt; number < 32 && magazine < 8);
    let address = magazine + 8 * number;
    let (first, second) = (ham(address % 16), ham(address / 16));
    let shown = if magazine == 0 { 8 } else { magazine };
    let text = if number <= 24 {
        "text |AAAAAAAAAAAAAAAAAAAAAAAAAAAAAAAAAAAAAAAA|\n"
    } else {
        ""
    };
    let want = format!(in rt.alloc(); "magazine {shown} packet {number}\n{text}")?;
    let codes = "c1c1c1c1c1c1c1c1c1c1c1c1c1c1c1c1c1c1c1c1c1c1c1c1c1c1c1c1c1c1c1c1c1c1c1c1c1c1c1c1";
    let digits = format!(in rt.alloc(); "{first:02x}{second:02x}{codes}")?;
    let arguments = ["subttx", "packet", digits.as_str()];
    assert_prints_of(rt, &arguments, &[], &[], want.as_bytes());
    Ok(())
}

#[test]
fn shows_each_packet_number(rt: HostRuntime) -> Result<(), Fail> {
    for number in 1..32u8 {
        assert_shows_number(&rt, number, number % 8)?;
    }
    Ok(())
}
