//! Properties of the Teletext packets of the last PES packet: the number of headers of the page,
//! whether the first packet, or a packet of its frame, starts a new text, and whether no packet
//! breaks a rule.
//!
//! A header of the page starts a new text if it has C4 (erase page) set, or if C4 must always be
//! set.
ghost use Rattle.std.specs.Prelude.{◌≡◌, ◌+◌, ◌<◌, ◌&&◌, ◌||◌, ◌==◌, if◌then◌else◌, None, Some};
ghost use Rattle.std.specs.Prelude.{nat_lt};
ghost use Rattle.ttx_pes.specs.PesGrammar.{max_units};

/// Returns the number of headers of the page after one more packet.
pub(crate) fn header_count_after(headers: u8, is_header: bool) -> u8
    requires { headers < max_units }
    ensures { result ≡ headers + (if is_header then 1 else 0) }
{
    if is_header { headers + 1 } else { headers }
}

/// Returns whether the first packet starts a new text. `begins` says whether packet `k` does.
pub(crate) fn begins_with_header(first: bool, k: usize, begins: bool) -> bool
    ensures { result ≡ (if k == 0 then begins else first) }
{
    if k == 0 { begins } else { first }
}

/// Returns whether a packet of the frame before packet `from` starts a new text.
pub(crate) fn has_started_before(from: u32, begun: bool) -> bool
    ensures { result ≡ (nat_lt 0 from && begun) }
{
    from > 0 && begun
}

/// Returns whether a packet of the frame, up to this packet, starts a new text: an earlier packet
/// (`begun`) or this packet (`begins`).
pub(crate) fn has_started(begun: bool, begins: bool) -> bool
    ensures { result ≡ (begun || begins) }
{
    begun || begins
}

/// Returns whether no packet up to this packet breaks a rule: no earlier packet does (`is_clean`),
/// nor does this packet (`breaks_none`).
pub(crate) fn stays_clean(is_clean: bool, breaks_none: bool) -> bool
    ensures { result ≡ (is_clean && breaks_none) }
{
    is_clean && breaks_none
}

/// Returns the number of headers of the page, if the first packet starts a new text and no packet
/// breaks a rule; otherwise `None`.
pub(crate) fn clean_header_count(first: bool, is_clean: bool, headers: u8) -> Option<u8>
    ensures { result ≡ (if first && is_clean then Some headers else None) }
{
    if first && is_clean {
        Some(headers)
    } else {
        None
    }
}
