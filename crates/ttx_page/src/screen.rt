//! The screen of a receiver, which displays a page when a later header has ended it.
ghost use Rattle.std.specs.Prelude.{◌≡◌, Some};
ghost use Rattle.ttx_page.specs.Receiver.{StoresForEvenParity, Step};
ghost use Rattle.ttx_page.specs.Screen.{Shows, ShowsAt, ShowsWaiting, display, screen_after};

use crate::page::Page;
use crate::receiver::Receiver;
use ttx_packet::Packet;

/// Receives a packet. If the packet ends the open page, copies the decoded page to the screen.
///
/// `screen` is `None` as long as nothing is displayed. A header of the page itself does not change
/// the screen: as in libzvbi, a page is displayed when a header of another page ends it.
pub fn hear_and_show<R: Receiver>(receiver: &mut R, screen: &mut Option<Page>, packet: &Packet)
    ensures step { Step (R.tuned_to receiver.old) (R.state receiver.old) packet.now
        (R.state receiver.new) }
    ensures cells { StoresForEvenParity R.leaves (R.tuned_to receiver.old) (R.state receiver.old)
        packet.now (R.state receiver.new) }
    ensures waits { screen.new ≡ screen_after (display (R.state receiver.old) screen.old)
        (R.state receiver.new) }
    ensures shows { ShowsAt (R.tuned_to receiver.old)
        (display (R.state receiver.old) screen.old) packet.now
        (display (R.state receiver.new) screen.new) }
    ensures tuned { R.tuned_to receiver.new ≡ R.tuned_to receiver.old }
{
    let was_open = receiver.is_page_open();
    receiver.hear(packet);
    if was_open && !receiver.is_page_open() {
        copy_to_screen(screen, receiver.page());
    }
}

// Copies the page to the screen.
fn copy_to_screen(screen: &mut Option<Page>, page: &Page)
    ensures { screen.new ≡ Some page.now }
{
    match screen {
        Some(shown) => *shown = *page,
        None => *screen = Some(*page),
    }
}

/// Receives all packets of a list, in order, and updates the screen as `hear_and_show` does.
#[tactic(auto, using(crate::proofs::RunLemmas::run_extends_by_packet))]
pub fn show_all<R: Receiver>(receiver: &mut R, screen: &mut Option<Page>, packets: &[Packet])
    ensures run { Shows (R.tuned_to receiver.old)
        (display (R.state receiver.old) screen.old) packets.now
        (display (R.state receiver.new) screen.new) }
    ensures waits { ShowsWaiting R.leaves (R.tuned_to receiver.old)
        (display (R.state receiver.old) screen.old) packets.now
        (display (R.state receiver.new) screen.new) }
    ensures tuned { R.tuned_to receiver.new ≡ R.tuned_to receiver.old }
{
    for packet in packets {
        hear_and_show(receiver, screen, packet);
    }
}
