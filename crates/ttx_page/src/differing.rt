//! Counts the cells in which two rows of a page differ.
ghost use Rattle.std.specs.Prelude.{◌≡◌, ◌≤◌};
ghost use Rattle.ttx_page.specs.Differing.{row_difference};

mod lanes;

use self::lanes::{count_differing_8, count_differing_16};

/// Returns how many of the 40 columns of two rows differ.
///
/// If a row of a page is replaced, the page's number of differing cells changes by as much as this
/// result does.
#[inline(always)]
pub fn count_differing_columns(a: &[u8; 40], b: &[u8; 40]) -> u16
    ensures value { result ≡ row_difference a.now b.now }
    ensures range { result ≤ 40 }
{
    let (a_blocks, _) = a.as_chunks::<16>();
    let (b_blocks, _) = b.as_chunks::<16>();
    let mut count = 0;
    for i in 0..2usize {
        count += count_differing_16(&a_blocks[i], &b_blocks[i]);
    }
    count + count_differing_8(a.last_chunk().unwrap(), b.last_chunk().unwrap())
}
