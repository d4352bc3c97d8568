//! Sources that return one byte at a time, or fail. Other tests cover sources that never end.

use super::files::{read_all, sample_file};
use crate::asserting::{assert_same, assert_same_for_case};
use fixtures::Drip;
use stl_file::{StlFault, StlReader};
use sub_io::{FailAt, Source};

#[test]
fn reports_the_block_of_the_byte_that_could_not_be_read(rt: HostRuntime) {
    let file = sample_file();
    for k in 0..1665 {
        let block = if k < 1024 {
            0
        } else {
            (k as u32 - 1024) / 128 + 1
        };
        let done = if k < 1536 {
            0
        } else if k < 1664 {
            1
        } else {
            2
        };
        let failed = read_all(&mut FailAt::new(Drip { rest: &file }, k));
        assert_same_for_case(&rt, &failed, &(done, Some(StlFault::Read), block), &k);
    }
    // The reader's last pull reached the end.
    let whole = read_all(&mut FailAt::new(Drip { rest: &file }, 1665));
    assert_same(&rt, &whole, &(2, None, 5));
}

#[test]
fn answers_ended_after_a_failure(rt: HostRuntime) {
    let file = sample_file();
    let mut source = FailAt::new(Drip { rest: &file }, 1100);
    let mut reader = StlReader::open(&mut source).expect(&rt, "it is read");
    assert!(rt; reader.next(&mut source).err() == Some(StlFault::Read));
    assert!(rt; reader.next(&mut source).err() == Some(StlFault::Ended));
    assert!(rt; reader.next(&mut source).err() == Some(StlFault::Ended));
    assert_same(&rt, &(reader.block(), source.failures()), &(1, 1));
}
