//! Compares a PTS of a PID with Teletext with the pictures and the clock of its programme.
ghost use Rattle.std.specs.Prelude.{◌≡◌};

use crate::carrier::Carrier;
use crate::clock::Clock;
use crate::lead::Picture;
use crate::text::Text;

/// Records a PTS of a PID, and compares it with the last picture of its programme and with the last
/// PCR of its clock, if they are known and a comparison is due. The PTS was received in transport
/// packet `number`.
pub fn process_new_pts(
    carrier: &mut Carrier,
    picture: Option<Picture>,
    clocks: &[Clock],
    place: u8,
    number: u64,
    pts: u64,
    text: &mut Text,
)
    ensures { carrier.new.pid ≡ carrier.old.pid }
{
    if let Some(picture) = picture {
        carrier.take_lead(pts, &picture, text);
    }
    let pcr = pcr_to_compare(carrier, clocks, place, pts, number);
    carrier.note_pts(pts, pcr, text);
}

// Returns the last PCR of the clock with index `place`, if there is one, the PCR is recent and a
// comparison with the PTS is due.
fn pcr_to_compare(
    carrier: &Carrier,
    clocks: &[Clock],
    place: u8,
    pts: u64,
    number: u64,
) -> Option<u64> {
    if !carrier.is_report_due(pts) {
        return None;
    }
    match clocks.get(place as usize) {
        Some(clock) => clock.near(number),
        None => None,
    }
}
