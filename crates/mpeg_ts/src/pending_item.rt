//! Reassembled PES packets and gap markers that are pending: they are ready to be returned.
ghost use Rattle.std.specs.Prelude.{◌≡◌};
ghost use Rattle.mpeg_ts.specs.Joining.{gap_marker_item};

use ttx_pes::PesFault;

/// The pending items, in order.
#[derive(Clone, Copy)]
pub(crate) enum PendingItem {
    /// There is no item.
    Nothing,
    /// A gap marker.
    GapMarker,
    /// The current PES packet, with or without a gap marker before it and after it.
    Packet {
        gap_marker_before: bool,
        size: usize,
        gap_marker_after: bool,
    },
    /// Bytes with a wrong start code or length, with or without a gap marker before them.
    Rest {
        gap_marker_before: bool,
        fault: PesFault,
    },
}

/// The next item to be returned.
#[derive(Clone, Copy)]
pub enum Next {
    /// There is no item.
    Nothing,
    /// A gap marker.
    GapMarker,
    /// A PES packet at the front of the collected bytes, with its size in bytes.
    Packet(usize),
    /// All collected bytes. Their start code or length is not that of a Teletext PES packet.
    Rest(PesFault),
}

// Returns a gap marker as the pending item if one is needed, or no item.
pub(crate) fn gap_marker_item(is_due: bool) -> PendingItem
    ensures { result ≡ gap_marker_item is_due }
{
    if is_due {
        PendingItem::GapMarker
    } else {
        PendingItem::Nothing
    }
}
