//! Receives Teletext packets, and stores the state on which the rules for later packets depend.
ghost use Rattle.std.specs.Prelude.{◌≡◌, ◌≢◌, ℕ, ◌+◌, ◌-◌, ◌<◌, ◌≤◌, ◌++◌, List, [], ◌∷◌};
ghost use Rattle.std.specs.Prelude.{length, IsTrue, true, false, map};
ghost use Rattle.std.specs.Prelude.{replicate};
ghost use Rattle.std.specs.Prelude.{◌&&◌, ◌==◌, not, Some};
ghost use Rattle.std.specs.Prelude.{slice_index_or, slice_set};
ghost use Rattle.std.specs.List.{filter};
ghost use Rattle.sub_io.specs.Reporting.{Reports};
ghost use Rattle.ttx_packet.specs.PageHeader.{HasExactHeader, decoded_header, header};
ghost use Rattle.ttx_page.specs.Page.{AreCodes, IsPage, IsRow, blank};
ghost use Rattle.ttx_page.specs.PacketKind.{begins_text, is_this_page, kind};
ghost use Rattle.ttx_page.specs.Span.{is_open_after};
ghost use Rattle.ttx_pes.specs.PesGrammar.{max_units};
ghost use Rattle.stl_rows.specs.DuePage.{ReportsNextEdge};
ghost use Rattle.stl_rows.specs.Programme.{IsProgramme};
ghost use Rattle.sub_plan.specs.Schedule.{due_page_in};
ghost use Rattle.sub_rules.specs.Events.{numbered_packet_events};
ghost use Rattle.sub_rules.specs.PacketRules.{header_count, packets_of_units};
ghost use Rattle.sub_rules.specs.Events.{packet_fault};
ghost use Rattle.sub_rules.specs.PacketTests.{breaks, packet_rules};

use crate::comparison::Comparison;
use crate::last_heard::{
    begins_with_header, clean_header_count, has_started, has_started_before, header_count_after,
    stays_clean,
};
use crate::packet_rules::{begins_text, first_serial, has_first_mode, is_serial, text_codes};
use crate::rule_set::report_rules;
use crate::taker::Taker;
use stl_rows::Programme;
use sub_rules::{Event, Watched};
use ttx_packet::{Header, Packet, SentPacket};
use ttx_page::{PacketKind, Page};
use ttx_pes::SentUnits;

/// Receives Teletext packets, and stores the page that they show.
///
/// Which rules a packet breaks depends on earlier packets: on the first page header that could be
/// decoded, whether the page is open, the sub-code of its last header, and the rows received while
/// it was open, since the last header that starts a new text, if any. The listener stores this
/// state and the expected page.
#[derive(Drop)]
pub struct Listener {
    /// The page, its national option, whether complete pages are required, and whether repeats may
    /// have C4 (erase page) clear.
    pub watched: Watched,
    // C11 (magazine serial) of the first page header that could be decoded; `None` if there was
    // none.
    pub(crate) serial: Option<bool>,
    // Whether the page is open: the next rows belong to it.
    pub(crate) is_open: bool,
    // The sub-code of the last header of the page; `None` before a header of the page was received.
    pub(crate) subcode: Option<u16>,
    // The rows received while the page was open, since the last header that starts a new text, if
    // any; row 1 is at index 0.
    pub(crate) sent: [bool; 24],
    // The rows received since the last header of the page, while the page was open; row 1 is at
    // index 0.
    pub(crate) again: [bool; 24],
    /// The page that the packets show, and the expected page.
    pub comparison: Comparison,
    /// Whether a packet of the last PES packet, or of the earlier PES packets that are merged with
    /// it in one frame, starts a new text.
    pub begun: bool,
    // The number of headers of the page in the last PES packet, if its first Teletext packet starts
    // a new text and none of its Teletext packets breaks a rule; otherwise `None`.
    last: Option<u8>,
}

// The properties of a received packet.
#[derive(Clone, Copy)]
struct HeardPacket {
    // Whether the packet is a header of the page.
    is_header: bool,
    // Whether the packet is a header that starts a new text.
    begins: bool,
    // Whether the packet breaks no rule.
    is_clean: bool,
}

impl Listener {
    ghost use Rattle.sub_packets.specs.StoredPage.{is_kept_page_incomplete};
    ghost use Rattle.sub_packets.specs.Listener.{CanBeSkipped, Knows, KnowsLast};
    ghost use Rattle.sub_packets.specs.Listener.{CanAlwaysBeSkipped};
    ghost use Rattle.sub_packets.specs.Listener.{frame_has_text_beginning};
    ghost use Rattle.sub_packets.specs.Listener.{can_skip_header, rule_set};

    /// Returns the state before the first packet, with the expected page `due`.
    pub fn new(watched: Watched, due: Page) -> Self
        ensures watched { result.watched ≡ watched }
        ensures due { result.comparison.due ≡ due }
        ensures knows { (last : List (List ℕ)) → KnowsLast [] last result }
    {
        Listener {
            watched,
            serial: None,
            is_open: false,
            subcode: None,
            sent: [false; 24],
            again: [false; 24],
            comparison: Comparison::new(due),
            begun: false,
            last: None,
        }
    }

    /// Draws the expected page of a frame, and returns the result of `Programme::draw_due`.
    pub fn draw_due(
        &mut self,
        programme: &Programme,
        frame: u32,
        guess: usize,
    ) -> (Option<u32>, usize)
        ensures due { self.new ≡ record self.old {
          comparison = record self.old.comparison { due = due_page_in programme.now frame };
        } }
        ensures edge { ReportsNextEdge programme.now.records frame result.0 }
        ensures programme { IsProgramme programme.now.drawing programme.now.records }
    {
        self.comparison.draw_due(programme, frame, guess)
    }

    /// Returns whether complete pages are required and the page is open.
    pub fn is_incomplete(&self) -> bool
        ensures { result ≡ is_kept_page_incomplete self.now }
    {
        self.watched.complete && self.is_open
    }

    /// Receives the packets of a PES packet, reports the rules that they break, and returns the
    /// number of headers of the page. `again` says that the packets equal those of the previous PES
    /// packet. `from` is the number of the first packet in its frame: 0, or the number of packets
    /// in the earlier PES packets that are merged with this one in one frame.
    ///
    /// If packets that begin with a header that starts a new text and break no rule are sent again
    /// at once (`again`), they change nothing, so they are not examined.
    #[inline(always)]
    pub fn hear_pes_packet<A: Taker>(
        &mut self,
        units: &SentUnits<'_>,
        again: bool,
        frame: u32,
        from: u32,
        taker: &mut A,
    ) -> u8
        requires few { length units.now ≤ max_units }
        requires from { from + max_units ≤ u32.MAX }
        ensures watched { self.new.watched ≡ self.old.watched }
        ensures due { self.new.comparison.due ≡ self.old.comparison.due }
        ensures knows { (heard last : List (List ℕ)) → KnowsLast heard last self.old
            → (again ≡ true → last ≡ packets_of_units units.now) → KnowsLast
            (heard ++ packets_of_units units.now) (packets_of_units units.now) self.new
            × (result ≡ header_count self.old.watched.page (packets_of_units units.now))
            × (self.new.begun ≡ frame_has_text_beginning self.old.watched from self.old.begun
            (packets_of_units units.now))
            × Reports A.is_reported taker.old taker.new
            (numbered_packet_events self.old.watched frame from heard (packets_of_units units.now)
            (length (packets_of_units units.now))) }
    {
        if again {
            if let Some(headers) = self.last {
                return headers;
            }
        }
        self.hear_each_packet(units, frame, from, taker)
    }

    // Receives the packets of a PES packet, reports the rules that they break, and returns the
    // number of headers of the page.
    #[inline(never)]
    fn hear_each_packet<A: Taker>(
        &mut self,
        units: &SentUnits<'_>,
        frame: u32,
        from: u32,
        taker: &mut A,
    ) -> u8
        requires few { length units.now ≤ max_units }
        requires from { from + max_units ≤ u32.MAX }
        ensures watched { self.new.watched ≡ self.old.watched }
        ensures due { self.new.comparison.due ≡ self.old.comparison.due }
        ensures knows { (heard : List (List ℕ)) → Knows heard self.old → KnowsLast
            (heard ++ packets_of_units units.now) (packets_of_units units.now) self.new
            × (result ≡ header_count self.old.watched.page (packets_of_units units.now))
            × (self.new.begun ≡ frame_has_text_beginning self.old.watched from self.old.begun
            (packets_of_units units.now))
            × Reports A.is_reported taker.old taker.new
            (numbered_packet_events self.old.watched frame from heard (packets_of_units units.now)
            (length (packets_of_units units.now))) }
    {
        let mut headers = 0;
        let mut first = false;
        let mut begun = has_started_before(from, self.begun);
        let mut is_clean = true;
        let mut k = 0;
        while k < units.len() {
            let sent = units.packet(k);
            if self.can_be_skipped(self.is_open, &sent) {
                k = self.next_examined_packet(units, k + 1);
            } else {
                let heard = self.judge(&sent.packet(), frame, from + k as u32, taker);
                first = begins_with_header(first, k, heard.begins);
                begun = has_started(begun, heard.begins);
                headers = header_count_after(headers, heard.is_header);
                is_clean = stays_clean(is_clean, heard.is_clean);
                k += 1;
            }
        }
        self.begun = begun;
        self.last = clean_header_count(first, is_clean, headers);
        headers
    }

    // Returns the number of the first packet, from `from` on, that must be examined, or the number
    // of packets if none must be.
    //
    // Most packets of a service can be skipped. This is a separate function so that the loop keeps
    // its values in registers and is compiled once for an open page and once for a closed page.
    #[inline(never)]
    fn next_examined_packet(&self, units: &SentUnits<'_>, from: usize) -> usize
        requires { from ≤ length units.now }
        ensures from { from ≤ result }
        ensures within { result ≤ length units.now }
        ensures skipped { (k : ℕ) → from ≤ k → k < result
            → CanAlwaysBeSkipped (slice_index_or (packets_of_units units.now) k []) self.now }
    {
        let is_open = self.is_open;
        for k in from..units.len() {
            if !self.can_be_skipped(is_open, &units.packet(k)) {
                return k;
            }
        }
        units.len()
    }

    // Returns whether a packet is known to break no rule and to change nothing, so that it can be
    // skipped. The first two bytes show this, or the first ten bytes of a page header.
    #[inline(always)]
    fn can_be_skipped(&self, is_open: bool, packet: &SentPacket<'_>) -> bool
        requires { is_open ≡ self.now.is_open }
        ensures no_header { IsTrue result
            → is_this_page (kind self.now.watched.page packet.now) ≡ false }
        ensures skipped { (heard : List (List ℕ)) → Knows heard self.now → IsTrue result
            → CanBeSkipped heard packet.now self.now }
    {
        let Some((magazine, packet_number)) = packet.exact_address() else {
            return false;
        };
        if packet_number != 0 {
            return self.is_closed_for_magazine(is_open, magazine);
        }
        if self.may_change_page(is_open, magazine, packet) {
            return false;
        }
        self.is_skippable_header(magazine, packet)
    }

    // Returns whether a page header is in the page's magazine and, unless the page is open, has the
    // page's number without coding errors.
    #[inline(always)]
    fn may_change_page(&self, is_open: bool, magazine: u8, packet: &SentPacket<'_>) -> bool
        ensures { magazine ≢ self.now.watched.page.magazine → result ≡ false }
    {
        magazine == self.watched.page.magazine()
            && (is_open || packet.exact_page() == Some(self.watched.page.page()))
    }

    // Returns whether the page is closed or the packet is of another magazine.
    #[inline(always)]
    fn is_closed_for_magazine(&self, is_open: bool, magazine: u8) -> bool
        ensures { result ≡ not (is_open && magazine == self.now.watched.page.magazine) }
    {
        !(is_open && magazine == self.watched.page.magazine())
    }

    // Returns whether a page header has no coding errors and can be skipped (`can_skip_header`).
    //
    // Not inlined into `can_be_skipped`, which would then keep fewer values in registers for other
    // packets.
    #[inline(never)]
    fn is_skippable_header(&self, magazine: u8, packet: &SentPacket<'_>) -> bool
        ensures { IsTrue result → HasExactHeader packet.now × ((h : Header)
            × (decoded_header packet.now ≡ Some h)
            × (can_skip_header magazine h self.now ≡ true)) }
    {
        match packet.exact_header() {
            Some(header) => self.can_skip_header(magazine, &header),
            None => false,
        }
    }

    // Returns whether a page header without coding errors can be skipped: it has the C11 of the
    // first page header that could be decoded, is no header of the page, and does not end the open
    // page. So it breaks no rule and changes nothing.
    #[inline(always)]
    fn can_skip_header(&self, magazine: u8, header: &Header) -> bool
        ensures { result ≡ can_skip_header magazine header.now self.now }
    {
        let is_serial = is_serial(header);
        if !has_first_mode(self.serial, is_serial) {
            return false;
        }
        let is_magazine = magazine == self.watched.page.magazine();
        if self.is_open {
            !is_magazine && !is_serial
        } else {
            !(is_magazine && header.page == self.watched.page.page())
        }
    }

    // Receives a packet that must be examined, and reports the rules that it breaks.
    #[inline(never)]
    fn judge<A: Taker>(
        &mut self,
        packet: &Packet,
        frame: u32,
        number: u32,
        taker: &mut A,
    ) -> HeardPacket
        ensures watched { self.new.watched ≡ self.old.watched }
        ensures due { self.new.comparison.due ≡ self.old.comparison.due }
        ensures header { result.is_header
            ≡ is_this_page (kind self.old.watched.page packet.now) }
        ensures begins { result.begins
            ≡ begins_text self.old.watched.keeps (kind self.old.watched.page packet.now) }
        ensures clean { (heard : List (List ℕ)) → Knows heard self.old
            → result.is_clean ≡ true
            → rule_set (λ r. breaks r self.old.watched heard packet.now) packet_rules ≡ 0 }
        ensures reported { (heard : List (List ℕ)) → Knows heard self.old
            → Reports A.is_reported taker.old taker.new
            (map (λ r. Event.Reported (packet_fault r frame number))
            (filter (λ r. breaks r self.old.watched heard packet.now) packet_rules)) }
        ensures knows { (heard : List (List ℕ)) → Knows heard self.old
            → Knows (heard ++ packet.now ∷ []) self.new }
    {
        let (found, page_header) = PacketKind::classify_with_header(self.watched.page, packet);
        let rules = self.broken_rules(packet, found, page_header);
        report_rules(rules, frame, number, taker);
        let is_header = self.hear(packet, found, page_header);
        let begins = begins_text(self.watched.keeps, &found);
        let is_clean = rules.has_none();
        HeardPacket {
            is_header,
            begins,
            is_clean,
        }
    }

    // Receives a packet, and returns whether it is a header of the page. If several packets of a
    // row come while the page is open, the codes of the first are kept until a header starts a new
    // text.
    #[inline(always)]
    fn hear(&mut self, packet: &Packet, found: PacketKind, page_header: Option<Header>) -> bool
        requires kind { found ≡ kind self.old.watched.page packet.now }
        requires page_header { page_header ≡ header packet.now }
        requires row { (row : ℕ) → found ≡ PacketKind.Row row → (1 ≤ row) × (row ≤ 24) }
        ensures header { result ≡ is_this_page (kind self.old.watched.page packet.now) }
        ensures watched { self.new.watched ≡ self.old.watched }
        ensures due { self.new.comparison.due ≡ self.old.comparison.due }
        ensures knows { (heard : List (List ℕ)) → Knows heard self.old
            → Knows (heard ++ packet.now ∷ []) self.new }
    {
        self.serial = first_serial(self.serial, page_header);
        match found {
            PacketKind::ThisPage(header) => {
                if begins_text(self.watched.keeps, &found) {
                    self.start(header.subcode);
                } else {
                    self.note_repeated_header(header.subcode);
                }
                true
            }
            PacketKind::EndsPage => {
                self.is_open = false;
                false
            }
            PacketKind::Row(row) => {
                if self.is_new_row(row) {
                    self.store_row(row, &text_codes(packet));
                } else if self.is_open {
                    self.note_repeated_row(row);
                }
                false
            }
            PacketKind::Other => false,
        }
    }

    // Returns whether the page is open and the row has not been received, while the page was open,
    // since the last header that starts a new text, if any.
    fn is_new_row(&self, row: u8) -> bool
        requires { IsRow row }
        ensures { result
            ≡ (self.now.is_open && not (slice_index_or self.now.sent (row - 1) false)) }
    {
        self.is_open && !self.sent[row as usize - 1]
    }

    // Erases and opens the page for a header with this sub-code. Afterwards no row counts as
    // received.
    fn start(&mut self, subcode: u16)
        ensures { self.new ≡ record self.old {
          is_open = true;
          subcode = Some subcode;
          sent = replicate 24 false;
          again = replicate 24 false;
          comparison = record self.old.comparison { page = blank };
        } }
    {
        self.is_open = true;
        self.subcode = Some(subcode);
        self.sent = [false; 24];
        self.again = [false; 24];
        self.comparison.clear();
    }

    // Notes a header that does not erase the page: the page is open, the text stays, and no row
    // counts as sent since this header.
    fn note_repeated_header(&mut self, subcode: u16)
        ensures { self.new ≡ record self.old {
          is_open = true;
          subcode = Some subcode;
          again = replicate 24 false;
        } }
    {
        self.is_open = true;
        self.subcode = Some(subcode);
        self.again = [false; 24];
    }

    // Stores the codes of a row, and notes that the row was received.
    fn store_row(&mut self, row: u8, codes: &[u8; 40])
        requires row { (1 ≤ row) × (row ≤ 24) }
        requires codes { AreCodes codes.now }
        ensures kept { self.new ≡ record self.old {
          sent = slice_set self.old.sent (row - 1) true;
          again = slice_set self.old.again (row - 1) true;
          comparison = record self.old.comparison {
            page = slice_set self.old.comparison.page (row - 1) codes.now;
          };
        } }
        ensures page { IsPage self.old.comparison.page }
    {
        self.sent[row as usize - 1] = true;
        self.again[row as usize - 1] = true;
        self.comparison.set_row(row, codes);
    }

    // Notes that a row was received again since the last header. Its codes stay.
    fn note_repeated_row(&mut self, row: u8)
        requires { (1 ≤ row) × (row ≤ 24) }
        ensures { self.new ≡ record self.old {
          again = slice_set self.old.again (row - 1) true;
        } }
    {
        self.again[row as usize - 1] = true;
    }
}
