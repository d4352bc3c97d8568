//! Passes Teletext packets to a receiver, with skipped and lost packets, bit errors, dropped rows,
//! and headers at which the receiver starts again.
ghost use Rattle.std.specs.Prelude.{◌≡◌, ℕ, ◌+◌, ◌-◌, ◌^◌, ◌<◌, ◌≤◌, ◌&&◌, ◌∷◌, List};
ghost use Rattle.std.specs.Prelude.{IfSome, IsTrue, length, not, true};
ghost use Rattle.std.specs.List.{filter};
ghost use Rattle.ttx_packet.specs.PacketAddress.{address};
ghost use Rattle.ttx_page.specs.Page.{blank};
ghost use Rattle.ttx_page.specs.PacketKind.{is_this_page, kind};
ghost use Rattle.ttx_page.specs.Screen.{Display, display};
ghost use Rattle.ttx_pes.specs.PesGrammar.{max_units};
ghost use Rattle.sub_rules.specs.PacketRules.{packets_of_units};
ghost use Rattle.sub_listen.specs.Reception.{ReceivesPackets, packets_used_by, restarts_at_header};
ghost use Rattle.sub_listen.specs.Reception.{first_forbidden_loss, is_lost_packet};
ghost use Rattle.sub_listen.specs.Reception.{is_received_packet};
ghost use Rattle.sub_listen.specs.Reception.{is_packet_used};
ghost use Rattle.sub_listen.specs.Reception.{may_be_lost_at, reception_of};
ghost use Rattle.sub_request.specs.Flips.{with_flip, with_flips};

use sub_request::{Flip, Listening, ReceiverKind};
use ttx_packet::{Packet, PageId, SentPacket};
use ttx_page::{PacketKind, Page, Receiver, hear_and_show, is_dropped};
use ttx_pes::SentUnits;

/// Returns the index of the first packet of a PES packet that is listed as lost and not skipped,
/// but must not be lost, since it is a page header or its address can't be decoded. `number` is the
/// index of the PES packet's first packet within the source.
pub fn first_forbidden_loss(
    listening: &Listening,
    number: u64,
    units: &SentUnits<'_>,
) -> Option<u32>
    requires few { length units.now ≤ max_units }
    requires number { number + max_units < u64.MAX }
    ensures value { result ≡ first_forbidden_loss (reception_of listening.now) number
        (packets_of_units units.now) }
    ensures place { IfSome result (λ place. place < max_units) }
{
    if listening.lost.as_slice().is_empty() {
        return None;
    }
    for k in 0..units.len() {
        if is_forbidden_loss(listening, number + k as u64, &units.packet(k)) {
            return Some(k as u32);
        }
    }
    None
}

/// Passes the packets of a PES packet that arrive to a receiver, with their bit errors and without
/// the rows that it drops. Updates its screen only if complete pages are required. `number` is the
/// index of the first packet within the source.
pub fn hear_units<R: Receiver + Drop>(
    receiver: &mut R,
    screen: &mut Option<Page>,
    listening: &Listening,
    number: u64,
    units: &SentUnits<'_>,
)
    requires few { length units.now ≤ max_units }
    requires number { number + max_units < u64.MAX }
    ensures run { ReceivesPackets listening.now R.leaves
        (R.tuned_to receiver.old) (display (R.state receiver.old) screen.old)
        (packets_used_by listening.now number (packets_of_units units.now))
        (display (R.state receiver.new) screen.new) }
    ensures tuned { R.tuned_to receiver.new ≡ R.tuned_to receiver.old }
{
    for k in 0..units.len() {
        let packet = units.packet(k).packet();
        hear_packet(receiver, screen, listening, number + k as u64, &packet);
    }
}

// Passes packet `number` of the source with its bit errors to a receiver if the packet arrives and
// the receiver does not drop it.
fn hear_packet<R: Receiver + Drop>(
    receiver: &mut R,
    screen: &mut Option<Page>,
    listening: &Listening,
    number: u64,
    packet: &Packet,
)
    ensures run { (packets : List (List ℕ)) (end : Display)
        → ReceivesPackets listening.now R.leaves
        (R.tuned_to receiver.old) (display (R.state receiver.new) screen.new)
        (packets_used_by listening.now (number + 1) packets) end
        → ReceivesPackets listening.now R.leaves
        (R.tuned_to receiver.old) (display (R.state receiver.old) screen.old)
        (packets_used_by listening.now number (packet.now ∷ packets)) end }
    ensures tuned { R.tuned_to receiver.new ≡ R.tuned_to receiver.old }
{
    if is_received_packet(listening, number) {
        let got = flip_bits(&listening.flips, number, packet);
        take(receiver, screen, listening, &got);
    }
}

// Passes an arriving packet to a receiver, unless the receiver drops it.
#[inline(always)]
fn take<R: Receiver + Drop>(
    receiver: &mut R,
    screen: &mut Option<Page>,
    listening: &Listening,
    packet: &Packet,
)
    ensures run { (packets : List (List ℕ)) (end : Display)
        → ReceivesPackets listening.now R.leaves
        (R.tuned_to receiver.old) (display (R.state receiver.new) screen.new)
        (filter (is_packet_used listening.now.receiver listening.now.options.page) packets) end
        → ReceivesPackets listening.now R.leaves
        (R.tuned_to receiver.old) (display (R.state receiver.old) screen.old)
        (filter (is_packet_used listening.now.receiver listening.now.options.page)
        (packet.now ∷ packets)) end }
    ensures tuned { R.tuned_to receiver.new ≡ R.tuned_to receiver.old }
{
    if !is_packet_used(listening, packet) {
        return;
    }
    if restarts_at_packet(listening.receiver, receiver.watched(), packet) {
        // Only a header of another page changes the screen.
        restart_at_header(receiver, packet);
    } else if listening.options.asks_complete() {
        hear_and_show(receiver, screen, packet);
    } else {
        // Complete pages are not required, so the screen does not change and no page is copied.
        receiver.hear(packet);
    }
}

// Returns whether the receiver uses an arriving packet. A receiver that drops rows does not use a
// row of its page's magazine with a data byte of even parity.
fn is_packet_used(listening: &Listening, packet: &Packet) -> bool
    ensures { result ≡ is_packet_used listening.now.receiver listening.now.options.page packet.now }
{
    match listening.receiver {
        ReceiverKind::DropRow => !is_dropped(listening.options.page(), packet),
        ReceiverKind::Keep | ReceiverKind::Blank | ReceiverKind::BlankEachHeader => true,
    }
}

// Returns whether a receiver starts again at the packet: the user requests this kind of receiver,
// and the packet is a header of its page.
fn restarts_at_packet(receiver: ReceiverKind, page_id: PageId, packet: &Packet) -> bool
    ensures { result ≡ (restarts_at_header receiver && is_this_page (kind page_id packet.now)) }
{
    match receiver {
        ReceiverKind::BlankEachHeader => is_header(page_id, packet),
        ReceiverKind::Keep | ReceiverKind::Blank | ReceiverKind::DropRow => false,
    }
}

// Returns whether a packet is a header of the page.
fn is_header(page_id: PageId, packet: &Packet) -> bool
    ensures { result ≡ is_this_page (kind page_id packet.now) }
{
    match PacketKind::of(page_id, packet) {
        PacketKind::ThisPage(_) => true,
        PacketKind::EndsPage | PacketKind::Row(_) | PacketKind::Other => false,
    }
}

// Passes a header of its page to a receiver that starts again. The receiver is tuned again with a
// blank page, and then receives the header.
fn restart_at_header<R: Receiver + Drop>(receiver: &mut R, header: &Packet)
    requires header { IsTrue (is_this_page (kind (R.tuned_to receiver.old) header.now)) }
    ensures state { R.state receiver.new
        ≡ record { heard = true; is_open = true; page = blank } }
    ensures tuned { R.tuned_to receiver.new ≡ R.tuned_to receiver.old }
{
    *receiver = R::tune(receiver.watched(), Page::blank());
    receiver.hear(header);
}

// Returns whether a packet is listed as lost and not skipped, but must not be lost.
fn is_forbidden_loss(listening: &Listening, number: u64, packet: &SentPacket<'_>) -> bool
    ensures { result
        ≡ (is_lost_packet (reception_of listening.now) number
        && not (may_be_lost_at (address packet.now))) }
{
    is_lost_packet(listening, number) && !may_be_lost(&packet.packet())
}

// Returns whether packet `number` of the source is lost: it is listed as lost, and not skipped.
fn is_lost_packet(listening: &Listening, number: u64) -> bool
    ensures { result ≡ is_lost_packet (reception_of listening.now) number }
{
    listening.skip <= number && listening.lost.contains(&number)
}

// Returns whether packet `number` of the source arrives: it is neither skipped nor lost.
fn is_received_packet(listening: &Listening, number: u64) -> bool
    ensures { result ≡ is_received_packet (reception_of listening.now) number }
{
    listening.skip <= number && !listening.lost.contains(&number)
}

// Returns whether a packet may be lost: its address can be decoded, and it is not a page header.
fn may_be_lost(packet: &Packet) -> bool
    ensures { result ≡ may_be_lost_at (address packet.now) }
{
    match packet.address() {
        Some((_, packet_number)) => packet_number != 0,
        None => false,
    }
}

// Returns packet `number` of the source with the requested bit errors.
fn flip_bits(flips: &[Flip], number: u64, packet: &Packet) -> Packet
    ensures { result ≡ with_flips flips.now number packet.now }
{
    let mut bytes = *packet.bytes();
    for flip in flips {
        flip_bit(flip, number, &mut bytes);
    }
    Packet::new(bytes)
}

// Flips one bit of packet `number` of the source, if `flip` is for this packet and the packet has
// this byte and bit.
fn flip_bit(flip: &Flip, number: u64, bytes: &mut [u8; 42])
    ensures { bytes.new ≡ with_flip flip.now number bytes.old }
{
    if flip.packet == number && flip.byte <= 41 && flip.bit >= 1 && flip.bit <= 8 {
        bytes[flip.byte as usize] ^= bit_mask(flip.bit);
    }
}

// Returns the value of bit 1 to 8 in a byte; bit 1 is the lowest.
fn bit_mask(bit: u8) -> u8
    requires { (1 ≤ bit) × (bit ≤ 8) }
    ensures { result ≡ 2 ^ (bit - 1) }
{
    match bit {
        1 => 1,
        2 => 2,
        3 => 4,
        4 => 8,
        5 => 16,
        6 => 32,
        7 => 64,
        _ => 128,
    }
}
