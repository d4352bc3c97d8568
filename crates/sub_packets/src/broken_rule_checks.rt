//! Finds the rules that a packet breaks, given the packets before it.
ghost use Rattle.std.specs.Prelude.{◌≡◌, ℕ, ◌-◌, ◌<◌, ◌≤◌, ◌&&◌, ◌==◌, List, drop, false, is_some};
ghost use Rattle.std.specs.Prelude.{not, slice_index_or};
ghost use Rattle.ttx_packet.specs.PacketAddress.{address};
ghost use Rattle.ttx_packet.specs.PageHeader.{header};
ghost use Rattle.ttx_packet.specs.RowPacket.{first_even_parity_column};
ghost use Rattle.ttx_page.specs.Differing.{row_difference};
ghost use Rattle.ttx_page.specs.Page.{IsRow, row_at};
ghost use Rattle.ttx_page.specs.PacketKind.{kind};
ghost use Rattle.sub_packets.specs.Listener.{rule_set};
ghost use Rattle.sub_rules.specs.PacketRules.{codes_of};
ghost use Rattle.sub_rules.specs.PacketTests.{breaks, is_enhancement_address, counts_as_repeat};
ghost use Rattle.sub_rules.specs.PacketTests.{erases_or_may_repeat};
ghost use Rattle.sub_rules.specs.PacketTests.{is_allowed_page_header, packet_rules};

use crate::listener::Listener;
use crate::packet_rules::{
    has_different_mode, has_even_byte, has_subtitle_bits, has_wrong_address, has_wrong_codes,
    is_enhancement, is_erasing, is_same_subcode,
};
use crate::rule_set::RuleSet;
use ttx_packet::{Header, Packet};
use ttx_page::PacketKind;

impl Listener {
    ghost use Rattle.sub_packets.specs.Listener.{Knows};

    /// Returns the rules that the packet breaks. `found` is its kind, and `page_header` its page
    /// header. The set is built from the last rule to the first.
    #[inline(always)]
    pub(crate) fn broken_rules(
        &self,
        packet: &Packet,
        found: PacketKind,
        page_header: Option<Header>,
    ) -> RuleSet
        requires kind { found ≡ kind self.now.watched.page packet.now }
        requires page_header { page_header ≡ header packet.now }
        requires row { (row : ℕ) → found ≡ PacketKind.Row row → (1 ≤ row) × (row ≤ 24) }
        ensures { (heard : List (List ℕ)) → Knows heard self.now
            → result.0 ≡ rule_set (λ r. breaks r self.now.watched heard packet.now) packet_rules }
    {
        self.broken_rules_from_control(packet, found)
            .with_earlier_rule(has_different_mode(self.serial, page_header))
            .with_earlier_rule(has_wrong_codes(packet, page_header))
            .with_earlier_rule(has_wrong_address(packet))
    }

    // Returns which of the rules from `Control` on the packet breaks. Only these depend on the kind
    // of the packet.
    #[inline(always)]
    fn broken_rules_from_control(&self, packet: &Packet, found: PacketKind) -> RuleSet
        requires kind { found ≡ kind self.now.watched.page packet.now }
        requires row { (row : ℕ) → found ≡ PacketKind.Row row → (1 ≤ row) × (row ≤ 24) }
        ensures small { result.0 < 0x10 }
        ensures rules { (heard : List (List ℕ)) → Knows heard self.now → result.0
            ≡ rule_set (λ r. breaks r self.now.watched heard packet.now) (drop 3 packet_rules) }
    {
        let none = RuleSet::none();
        match found {
            PacketKind::ThisPage(header) => {
                none.with_earlier_rule(!self.is_allowed_page_header(&header))
            }
            PacketKind::EndsPage => none,
            PacketKind::Row(row) => {
                RuleSet::of_row(
                    self.breaks_parity(packet),
                    self.breaks_row_changed(row, packet),
                )
            }
            PacketKind::Other => RuleSet::of_enhancement(self.breaks_enhancement(packet)),
        }
    }

    // Returns whether a header of the page has the control bits of a subtitle page, and has C4
    // (erase page) set or is an allowed repeat.
    fn is_allowed_page_header(&self, header: &Header) -> bool
        ensures { (heard : List (List ℕ)) → Knows heard self.now
            → result ≡ is_allowed_page_header self.now.watched heard header.now }
    {
        self.erases_or_may_repeat(header) && has_subtitle_bits(self.watched.national, header)
    }

    // Returns whether a header of the page has C4 (erase page) set or is an allowed repeat.
    fn erases_or_may_repeat(&self, header: &Header) -> bool
        ensures { (heard : List (List ℕ)) → Knows heard self.now
            → result ≡ erases_or_may_repeat self.now.watched heard header.now }
    {
        is_erasing(header) || (self.watched.keeps && self.counts_as_repeat(header))
    }

    // Returns whether a header of the page counts as a repeat: it has the sub-code of the page's
    // last header, if there is one; and if complete pages are required, the page is not open.
    fn counts_as_repeat(&self, header: &Header) -> bool
        ensures { (heard : List (List ℕ)) → Knows heard self.now → result
            ≡ counts_as_repeat self.now.watched.complete self.now.watched.page heard header.now }
    {
        is_same_subcode(self.subcode, header) && !self.is_incomplete()
    }

    // Returns whether the page is open and the row has a text byte with even parity.
    fn breaks_parity(&self, packet: &Packet) -> bool
        ensures { result ≡ (self.now.is_open && is_some (first_even_parity_column packet.now)) }
    {
        self.is_open && has_even_byte(packet)
    }

    // Returns whether the page is open and the row has different codes than the row's first packet
    // that was received while the page was open, since the last header that starts a new text, if
    // any; `false` if there is no such packet.
    fn breaks_row_changed(&self, row: u8, packet: &Packet) -> bool
        requires { IsRow row }
        ensures { result ≡ (self.now.is_open && slice_index_or self.now.sent (row - 1) false
            && not (row_difference (row_at self.now.comparison.page row) (codes_of packet.now)
            == 0)) }
    {
        self.is_open && self.sent[row as usize - 1] && self.comparison.differs_from(row, packet)
    }

    // Returns whether the page is open and the packet is a packet X/25 to X/28 of its magazine.
    fn breaks_enhancement(&self, packet: &Packet) -> bool
        ensures { result
            ≡ (self.now.is_open && is_enhancement_address self.now.watched.page
            (address packet.now)) }
    {
        self.is_open && is_enhancement(self.watched.page, packet)
    }
}
