//! Reading a subtitle file after a rejected subtitle.

use crate::asserting::assert_same;
use fixtures::file_of_three;
use stl_file::{Found, ResumingReader, Scope, StlFault, Subtitle};
use sub_io::MemSource;

// Returns the block numbers after a subtitle, after a rejected subtitle of two blocks, and at the
// end of the file.
fn block_numbers_read(file: &[u8]) -> [u32; 3] {
    let mut source = MemSource::new(file);
    let mut subtitle = Subtitle::empty();
    let mut blocks = [0; 3];
    let Ok(mut reader) = ResumingReader::open(&mut source, Scope::whole()) else {
        return blocks;
    };
    let Ok(Found::Subtitle) = reader.next_into(&mut source, &mut subtitle) else {
        return blocks;
    };
    blocks[0] = reader.block();
    let Ok(Found::Refused(StlFault::Cumulative)) = reader.next_into(&mut source, &mut subtitle)
    else {
        return blocks;
    };
    blocks[1] = reader.block();
    let Ok(Found::End) = reader.next_into(&mut source, &mut subtitle) else {
        return blocks;
    };
    blocks[2] = reader.block();
    blocks
}

#[test]
fn finds_what_comes_after_a_refused_subtitle(rt: HostRuntime) {
    let mut file = file_of_three(2, 1);
    file[1155] = 0; // EBN: the third block is the last one of the second subtitle
    assert_same(&rt, &block_numbers_read(&file), &[1, 2, 3]);
}

// Returns the number of subtitles, at most two, that are read before any other result. The file has
// three subtitles at frames 900,000, 900,050 and 900,100, of which the second is cumulative.
// Returns 9 if the file is rejected.
fn taken(display: u8, takes_open: bool, from: u32, to: u32) -> u32 {
    let mut file = file_of_three(2, 1);
    file[11] = display;
    let scope = Scope {
        takes_open,
        from,
        to,
    };
    let mut source = MemSource::new(&file);
    let mut subtitle = Subtitle::empty();
    let Ok(mut reader) = ResumingReader::open(&mut source, scope) else {
        return 9;
    };
    let Ok(Found::Subtitle) = reader.next_into(&mut source, &mut subtitle) else {
        return 0;
    };
    let Ok(Found::Subtitle) = reader.next_into(&mut source, &mut subtitle) else {
        return 1;
    };
    2
}

#[test]
fn takes_what_is_in_the_scope(rt: HostRuntime) {
    assert_same(&rt, &taken(b'1', false, 0, 2_160_000), &1);
    assert_same(&rt, &taken(b'1', false, 900_000, 900_050), &1);
    assert_same(&rt, &taken(b'1', false, 900_051, 2_160_000), &1);
    assert_same(&rt, &taken(b'1', false, 0, 900_000), &0);
    assert_same(&rt, &taken(b'1', false, 900_101, 2_160_000), &0);
    assert_same(&rt, &taken(b'1', false, 900_100, 900_000), &0);
    assert_same(&rt, &taken(b'0', false, 0, 2_160_000), &9);
    assert_same(&rt, &taken(b'0', true, 0, 2_160_000), &1);
    assert_same(&rt, &taken(b' ', true, 0, 2_160_000), &1);
    assert_same(&rt, &taken(b'2', true, 0, 2_160_000), &1);
    assert_same(&rt, &taken(b'3', true, 0, 2_160_000), &9);
}
