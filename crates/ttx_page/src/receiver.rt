//! The trait of receivers of one page.
ghost use Rattle.std.specs.Prelude.{◌≡◌, ℕ, true, false};
ghost use Rattle.ttx_packet.specs.PageId.{PageIdValue};
ghost use Rattle.ttx_page.specs.Receiver.{Hears, HearsLeaving, StoresForEvenParity, State, Step};

use crate::page::Page;
use ttx_packet::{Packet, PageId};

/// A level 1 receiver of one page (EN 300 706), which receives packets and decodes the page.
///
/// The clause `step` of `hear` restricts a receiver: each packet changes it as `specs/Receiver`
/// allows. There the code stored for a byte of even parity is left open; a receiver specifies it in
/// `leaves`. `Keep` and `Blank` are the two extremes. `DropRow` is not a `Receiver`, since it drops
/// whole rows.
pub trait Receiver: Sized {
    /// The page to which the receiver is tuned.
    ghost tuned_to: { Self → PageIdValue };

    /// The state: whether a header of the page was received, whether the page is open, and its
    /// contents.
    ghost state: { Self → State };

    /// The code stored in a cell for a byte of even parity, given the old code.
    ghost leaves: { ℕ → ℕ };

    /// Creates a receiver tuned to `page_id` that has received nothing. Its page is not open, and
    /// has the contents of `page`, which may be any page displayed before.
    fn tune(page_id: PageId, page: Page) -> Self
        ensures tuned { tuned_to result ≡ page_id }
        ensures state { state result ≡ record { heard = false; is_open = false; page = page } };

    /// Returns the page to which the receiver is tuned.
    fn watched(&self) -> PageId
        ensures { result ≡ tuned_to self.now };

    /// Returns whether a header of the page was received since `tune`.
    fn heard(&self) -> bool
        ensures { result ≡ (state self.now).heard };

    /// Returns whether the page is open, so that rows of its magazine are stored: a header of the
    /// page was received, and no header after the last one has ended it.
    fn is_page_open(&self) -> bool
        ensures { result ≡ (state self.now).is_open };

    /// Returns the contents of the receiver's page.
    fn page(&self) -> &Page
        ensures { result.now ≡ (state self.now).page };

    /// Receives a packet. The receiver chooses what to store for each byte of even parity.
    fn hear(&mut self, packet: &Packet)
        ensures step { Step (tuned_to self.old) (state self.old) packet.now (state self.new) }
        ensures cells { StoresForEvenParity leaves (tuned_to self.old) (state self.old) packet.now
            (state self.new) }
        ensures tuned { tuned_to self.new ≡ tuned_to self.old };
}

/// Receives all packets of a list, in order. The receiver chooses what to store for each byte of
/// even parity.
#[tactic(auto, using(crate::proofs::RunLemmas::run_extends_by_packet))]
pub fn hear_all<R: Receiver>(receiver: &mut R, packets: &[Packet])
    ensures run { Hears (R.tuned_to receiver.old) (R.state receiver.old) packets.now
        (R.state receiver.new) }
    ensures leaves_cells { HearsLeaving R.leaves (R.tuned_to receiver.old)
        (R.state receiver.old)
        packets.now (R.state receiver.new) }
    ensures tuned { R.tuned_to receiver.new ≡ R.tuned_to receiver.old }
{
    for packet in packets {
        receiver.hear(packet);
    }
}
