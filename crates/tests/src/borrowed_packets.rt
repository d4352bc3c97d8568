//! Sources that have the complete next PES packet in memory, and devices that are flushed before
//! the next packet is read.
ghost use Rattle.std.specs.Prelude.{◌≡◌, nat_eq, true};

use crate::asserting::{assert_same, assert_same_for_case};
use fixtures::FIRST;
use std::process::Abort;
use sub_io::{FailAt, Live, MemSource, Stopped};
use ttx_pes::{FilePesPackets, flush_first, has_enough_for_packet};

// Asserts whether `bytes` contain a complete PES packet, or show that no PES packet starts there.
fn assert_holds(rt: &impl Abort, bytes: &[u8], holds: bool) {
    assert_same_for_case(rt, &has_enough_for_packet(bytes), &holds, &bytes.len());
}

#[test]
fn reports_whether_a_packet_is_borrowed_complete(rt: HostRuntime) {
    assert_holds(&rt, &[], false);
    assert_holds(&rt, &FIRST[..5], false);
    assert_holds(&rt, &FIRST[..6], false);
    assert_holds(&rt, &FIRST[..183], false);
    assert_holds(&rt, &FIRST, true);
    // Six bytes are enough to show that no PES packet starts here: the start code is wrong, or the
    // length is invalid.
    assert_holds(&rt, &[0; 6], true);
    assert_holds(&rt, &[0, 0, 1, 0xBD, 0, 0], true);
}

// A device with pending output until it is flushed.
#[derive(Drop)]
struct PendingDevice {
    calls: u64,
}

impl Live for PendingDevice {
    ghost has_pending_reports = { λ w. nat_eq w.calls 0 };

    ghost buffered = { λ _. 0 };

    ghost is_flushed = { λ old ok new. ok ≡ true };

    fn has_pending(&self) -> bool {
        self.calls == 0
    }

    fn flush_pending(&mut self) -> Result<(), Stopped> {
        self.calls = 1;
        Ok(())
    }
}

#[test]
fn flushes_where_a_packet_is_not_borrowed(rt: HostRuntime) {
    let mut device = PendingDevice { calls: 0 };
    let mut borrowed = MemSource::new(&FIRST);
    let pes_packets = FilePesPackets::new(&mut borrowed);
    assert_same(&rt, &flush_first(&pes_packets, &mut device), &Ok(()));
    assert_same(&rt, &device.calls, &0);
    let mut source = FailAt::new(MemSource::new(&FIRST), 9);
    let unknown = FilePesPackets::new(&mut source);
    assert_same(&rt, &flush_first(&unknown, &mut device), &Ok(()));
    assert_same(&rt, &device.calls, &1);
    // A device without pending output is not flushed.
    device.calls = 7;
    assert_same(&rt, &flush_first(&unknown, &mut device), &Ok(()));
    assert_same(&rt, &device.calls, &7);
}
