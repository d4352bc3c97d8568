//! Lack of memory, for an input that is read completely and for options with lists.
use linked_list_allocator::LocalHeap;
use std::alloc::Global;
use std::process::Abort;
use std::test::Fail;
use sub_answer::{InputFault, read_input};
use sub_io::MemSource;
use sub_request::Flip;
use sub_words::parse_list;

// Asserts whether this much memory is enough to read an input, and that a lack of memory is
// reported.
fn assert_reads(
    rt: &(impl Abort + Alloc<A = Global>),
    input: &[u8],
    size: usize,
    is_enough: bool,
) -> Result<(), Fail> {
    let heap = LocalHeap::new(rt.alloc(), size)?;
    match read_input(&heap, &mut MemSource::new(input)) {
        Ok(bytes) => assert!(rt; is_enough && bytes.as_slice() == input, "{size}"),
        Err(fault) => assert!(rt; !is_enough && fault == InputFault::Memory, "{size}"),
    }
    Ok(())
}

#[test]
fn reports_each_growth_that_is_refused(rt: HostRuntime) -> Result<(), Fail> {
    // The input is read into a vector whose capacity doubles, from 131,072 to 262,144 bytes at the
    // end.
    let input = vec![in rt.alloc(); 0x20; 153_600]?;
    assert_reads(&rt, input.as_slice(), 0, false)?;
    assert_reads(&rt, input.as_slice(), 60_000, false)?;
    assert_reads(&rt, input.as_slice(), 100_000, false)?;
    assert_reads(&rt, input.as_slice(), 220_000, false)?;
    assert_reads(&rt, input.as_slice(), 1_000_000, true)
}

// Returns whether memory runs out for a list of bit flips.
fn refuses_flips(rt: &(impl Abort + Alloc<A = Global>), size: usize) -> Result<bool, Fail> {
    let heap = LocalHeap::new(rt.alloc(), size)?;
    let flips = "0:0:1,1:0:1,2:0:1,3:0:1,4:0:1,5:0:1,6:0:1,7:0:1,8:0:1";
    match parse_list::<_, Flip>(&heap, flips) {
        Ok(list) => {
            assert!(rt; list.is_some(), "{size}");
            Ok(false)
        }
        Err(_) => Ok(true),
    }
}

// Returns whether memory runs out for a list of lost packets.
fn refuses_lost(rt: &(impl Abort + Alloc<A = Global>), size: usize) -> Result<bool, Fail> {
    let heap = LocalHeap::new(rt.alloc(), size)?;
    let lost = "0,1,2,3,4,5,6,7,8,9,10,11,12,13,14,15,16";
    match parse_list::<_, u64>(&heap, lost) {
        Ok(list) => {
            assert!(rt; list.is_some(), "{size}");
            Ok(false)
        }
        Err(_) => Ok(true),
    }
}

#[test]
fn reports_each_growth_of_lists_that_is_refused(rt: HostRuntime) -> Result<(), Fail> {
    let mut refused = 0usize;
    for size in 0..64usize {
        refused = refused.saturating_add(usize::from(refuses_flips(&rt, size * 32)?));
        refused = refused.saturating_add(usize::from(refuses_lost(&rt, size * 32)?));
    }
    assert!(rt; refused > 2 && refused < 126);
    Ok(())
}
