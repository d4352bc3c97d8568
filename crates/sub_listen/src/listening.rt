//! Passes the packets of a PES file or a recording to one receiver.

ghost use Rattle.std.specs.Prelude.{◌≡◌, ◌+◌, ◌<◌, ◌≤◌, ◌&&◌, ◌==◌, IfErr, Option, false, true};
ghost use Rattle.std.specs.Prelude.{if◌then◌else◌, not};
ghost use Rattle.sub_io.specs.Device.{CanFail, CountsFailureIf, failed};
ghost use Rattle.sub_io.specs.Reading.{IfKnown};
ghost use Rattle.ttx_page.specs.Screen.{display};
ghost use Rattle.sub_plan.specs.FrameTime.{clock_of};
ghost use Rattle.sub_rules.specs.FrameRules.{UnreadReason};
ghost use Rattle.sub_listen.specs.Run.{FailsListening, ReceivesFile, is_failed_read, is_stl_fault};
ghost use Rattle.sub_listen.specs.Run.{least_frame_after};
ghost use Rattle.sub_rules.specs.PesReading.{ReadsAs};
ghost use Rattle.sub_rules.specs.Transmission.{Transmission};
ghost use Rattle.sub_listen.specs.declared.listening.ListenFault.TheVariants.{File};

use crate::reception::{first_forbidden_loss, hear_units};
use sub_io::{FaultCode, Source};
use sub_request::Listening;
use sub_rules::{CheckFault, NextPesPacket, next_pes_packet};
use ttx_page::{Page, Receiver};
use ttx_pes::{ComparingReader, FilePesPackets, PesPackets};

/// The reason why not all PES packets up to frame `at` can be passed to a receiver.
#[derive(Clone, Copy, Debug, PartialEq, Eq)]
pub enum ListenFault {
    /// The next PES packet can't be read, its PTS belongs to no frame, or its frame is not after
    /// the frame before (or is before it, if `within` is not 0). Contains the fault that `check`
    /// has for this.
    File(CheckFault),
    /// A packet is listed as lost and not skipped, but must not be lost: it is a page header, or
    /// its address can't be decoded.
    LostHeader {
        /// The packet's frame, counted from 0 at the start of the day.
        frame: u32,
        /// The index of the packet, counted from 0 within its PES packet; if `within` is not 0,
        /// within all PES packets of its frame.
        packet: u32,
    },
}

impl ListenFault {
    ghost use Rattle.sub_listen.specs.Fault.{listen_code};

    /// Returns the number and the name of the fault in reports.
    pub fn code(self) -> FaultCode
        ensures { result ≡ listen_code self }
    {
        match self {
            ListenFault::File(fault) => fault.code(),
            ListenFault::LostHeader { .. } => FaultCode::new(76, "LostHeader"),
        }
    }
}

impl From<CheckFault> for ListenFault {
    ghost from_gives = { λ fault e. e ≡ File fault };

    fn from(fault: CheckFault) -> ListenFault {
        ListenFault::File(fault)
    }
}

/// Passes the PES packets of a file, up to frame `at`, to a receiver with a screen. The screen
/// changes only if complete pages are required.
///
/// The receiver receives the Teletext packets with the requested bit errors, without skipped and
/// lost packets and without rows that it drops. Nothing is read after the first PES packet later
/// than frame `at`. If the PES packet after the received ones can't be read or belongs to no frame,
/// its fault is returned. If `within` is not 0, consecutive PES packets may belong to one frame.
///
/// # Errors
///
/// Returns the first fault in file order. `File` has the fault that `check` reports if a PES packet
/// can't be read or belongs to no frame, or `Order` if its frame is too early. `LostHeader` means
/// that a page header, or a packet whose address can't be decoded, is listed as lost and not
/// skipped.
pub fn listen<R: Receiver + Drop, S: Source>(
    receiver: &mut R,
    screen: &mut Option<Page>,
    pes: &mut S,
    listening: &Listening,
) -> Result<(), ListenFault>
    requires count { CanFail (S.failure_count pes.old) }
    requires tuned { R.tuned_to receiver.old ≡ listening.now.options.page }
    ensures exact { (frames : Transmission) (unread : Option UnreadReason)
        → IfKnown (S.remaining pes.old) (λ bytes.
        ReadsAs (clock_of listening.now.options) 0 bytes frames unread
        → failed is_failed_read result ≡ false
        → ReceivesFile R.leaves listening.now frames unread (S.remaining pes.old)
        (S.remaining pes.new) (R.tuned_to receiver.old)
        (display (R.state receiver.old) screen.old)
        (display (R.state receiver.new) screen.new) result) }
    ensures failed { IfErr result (λ f. is_failed_read f ≡ true
        → FailsListening listening.now (S.remaining pes.old) (S.remaining pes.new) f) }
    ensures own { IfErr result (λ f. is_stl_fault f ≡ false) }
    ensures count { CountsFailureIf S.failure_count pes.old (failed is_failed_read result) pes.new }
{
    let mut pes_packets = FilePesPackets::new(pes);
    listen_pes_packets(receiver, screen, &mut pes_packets, listening)
}

/// Passes PES packets, up to frame `at`, to a receiver with a screen, as `listen` does for the PES
/// packets of a source.
///
/// # Errors
///
/// Returns the same faults as `listen`.
pub fn listen_pes_packets<R: Receiver + Drop, P: PesPackets>(
    receiver: &mut R,
    screen: &mut Option<Page>,
    pes: &mut P,
    listening: &Listening,
) -> Result<(), ListenFault>
    requires count { CanFail (P.failure_count pes.old) }
    requires tuned { R.tuned_to receiver.old ≡ listening.now.options.page }
    ensures exact { (frames : Transmission) (unread : Option UnreadReason)
        → IfKnown (P.remaining pes.old) (λ bytes.
        ReadsAs (clock_of listening.now.options) 0 bytes frames unread
        → failed is_failed_read result ≡ false
        → ReceivesFile R.leaves listening.now frames unread (P.remaining pes.old)
        (P.left pes.new) (R.tuned_to receiver.old)
        (display (R.state receiver.old) screen.old)
        (display (R.state receiver.new) screen.new) result) }
    ensures failed { IfErr result (λ f. is_failed_read f ≡ true
        → FailsListening listening.now (P.remaining pes.old) (P.left pes.new) f) }
    ensures own { IfErr result (λ f. is_stl_fault f ≡ false) }
    ensures device { P.device pes.new ≡ P.device pes.old }
    ensures count { CountsFailureIf P.failure_count pes.old (failed is_failed_read result) pes.new }
{
    let mut reader = ComparingReader::new();
    let mut least = 0;
    let mut number = 0u64;
    let mut sent = 0;
    let mut index = 0;
    'packets: loop {
        let next = next_pes_packet(&mut reader, pes, &listening.options, index)?;
        let Some(pes_packet) = next else {
            return Ok(());
        };
        let frame = match pes_packet {
            NextPesPacket::Skipped(fault) => return Err(ListenFault::File(fault)),
            NextPesPacket::Sent(sending) => sending.frame,
        };
        if frame < least {
            let fault = CheckFault::Order { pes: index };
            return Err(ListenFault::File(fault));
        }
        if frame > listening.at {
            return Ok(());
        }
        let within = listening.options.within();
        let before = first_in_frame(within, frame, least, sent);
        let units = reader.units();
        if let Some(place) = first_forbidden_loss(listening, number, &units) {
            let packet = before + place;
            return Err(ListenFault::LostHeader { frame, packet });
        }
        hear_units(receiver, screen, listening, number, &units);
        let count = units.len();
        number += count as u64;
        sent = before + count as u32;
        least = least_frame_after(within, frame);
        index += 1;
    }
}

// Returns the index, within its frame, of the first Teletext packet of a PES packet; 0 if `within`
// is 0. The PES packet before it ended with `sent` packets sent in its frame; `least` is the
// earliest frame that may follow it.
fn first_in_frame(within: u64, frame: u32, least: u32, sent: u32) -> u32
    ensures value { result ≡ (if not (within == 0) && (frame == least) then sent else 0) }
    ensures most { result ≤ sent }
{
    if within != 0 && frame == least {
        sent
    } else {
        0
    }
}

// Returns the earliest frame to which the PES packet after one of frame `frame` may belong.
fn least_frame_after(within: u64, frame: u32) -> u32
    requires { frame < u32.MAX }
    ensures value { result ≡ least_frame_after within frame }
    ensures most { result ≤ frame + 1 }
{
    if within == 0 { frame + 1 } else { frame }
}
