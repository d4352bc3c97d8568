//! Classifies packets by their meaning for a receiver of one page.
ghost use Rattle.std.specs.Prelude.{◌≡◌, ◌≤◌, ℕ};
ghost use Rattle.ttx_packet.specs.PageHeader.{c11};

use bitflags::Flags;
use ttx_packet::{Control, Header, Packet, PageId};

/// The meaning of a packet for a receiver of one page (EN 300 706, page header and packets X/1 to
/// X/24).
#[derive(Clone, Copy, Debug, PartialEq, Eq)]
pub enum PacketKind {
    /// A header of the page.
    ThisPage(Header),
    /// A header that ends the page: a header of another page in its magazine, or a header in
    /// another magazine with C11, magazine serial, set.
    EndsPage,
    /// A row of the page's magazine, 1 to 24.
    Row(u8),
    /// Any other packet. This includes packets whose address cannot be decoded, and packets X/0
    /// with a coded byte that cannot be decoded.
    Other,
}

#[tactic(auto, unfolding(crate::specs::PacketKind::kind, ttx_packet::specs::PageHeader::header))]
impl PacketKind {
    ghost use Rattle.ttx_page.specs.PacketKind.{kind};
    ghost use Rattle.ttx_packet.specs.PageHeader.{header};

    /// Returns the meaning of a packet for a receiver of the page `watched`.
    ///
    /// Inlined for speed, since a receiver uses only C4 of a header.
    #[inline(always)]
    pub fn of(watched: PageId, packet: &Packet) -> PacketKind
        ensures value { result ≡ kind watched packet.now }
        ensures row { (row : ℕ) → result ≡ PacketKind.Row row → (1 ≤ row) × (row ≤ 24) }
    {
        PacketKind::classify_with_header(watched, packet).0
    }

    /// Returns the meaning of a packet for a receiver of the page `watched`, and the packet's page
    /// header, which may be of any page (`None` if the packet has none that can be decoded).
    ///
    /// Decodes the address only once, and the coded bytes only in a packet X/0.
    #[inline(always)]
    pub fn classify_with_header(watched: PageId, packet: &Packet) -> (PacketKind, Option<Header>)
        ensures kind { result.0 ≡ kind watched packet.now }
        ensures header { result.1 ≡ header packet.now }
        ensures row { (row : ℕ) → result.0 ≡ PacketKind.Row row → (1 ≤ row) × (row ≤ 24) }
    {
        let Some((magazine, packet_number)) = packet.address() else {
            return (PacketKind::Other, None);
        };
        let is_same_magazine = magazine == watched.magazine();
        if packet_number == 0 {
            let Some(header) = packet.decoded_header() else {
                return (PacketKind::Other, None);
            };
            if is_same_magazine {
                if header.page == watched.page() {
                    (PacketKind::ThisPage(header), Some(header))
                } else {
                    (PacketKind::EndsPage, Some(header))
                }
            } else if is_serial(&header) {
                (PacketKind::EndsPage, Some(header))
            } else {
                (PacketKind::Other, Some(header))
            }
        } else if is_same_magazine && packet_number <= 24 {
            (PacketKind::Row(packet_number), None)
        } else {
            (PacketKind::Other, None)
        }
    }
}

// Returns whether control bit C11, magazine serial, of a page header is set. Such a header also
// ends pages of other magazines.
fn is_serial(header: &Header) -> bool
    ensures { result ≡ c11 header.now }
{
    header.control.contains(Control::C11)
}
