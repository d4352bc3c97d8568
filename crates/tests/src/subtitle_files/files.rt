//! Subtitle files as bytes, and a function that reads them completely.

ghost use Rattle.sub_io.specs.Device.{CanFail};

use fixtures::{block, gsi, put};
use stl_file::{StlFault, StlReader};
use sub_io::Source;

/// The fields of a first block: SGN 7, SN 0105, EBN 00, CS 0, from 00:00:01:00 to 00:00:02:00, row
/// 20, centred, CF 0.
pub(crate) const FIRST: [u8; 16] = [7, 5, 1, 0x00, 0, 0, 0, 1, 0, 0, 0, 2, 0, 20, 2, 0];

/// The fields of the last block of this subtitle, with EBN FF.
pub(crate) const LAST: [u8; 16] = [7, 5, 1, 0xff, 0, 0, 0, 1, 0, 0, 0, 2, 0, 20, 2, 0];

/// The fields of a subtitle of one block, from 00:00:02:00 to 00:00:04:24.
pub(crate) const ALONE: [u8; 16] = [7, 6, 1, 0xff, 0, 0, 0, 2, 0, 0, 0, 4, 24, 1, 0, 0];

/// The fields of a comment, with CF 1. CS, the times, VP and JC of a comment are not checked.
pub(crate) const COMMENT: [u8; 16] = [7, 5, 1, 0xff, 9, 9, 99, 9, 9, 9, 9, 9, 9, 99, 9, 1];

/// The fields of user data, with EBN FE and any CF.
pub(crate) const USER_DATA: [u8; 16] = [9, 9, 9, 0xfe, 9, 9, 9, 9, 9, 9, 9, 9, 9, 99, 9, 9];

/// Returns a file with two subtitles in five blocks: a comment, a subtitle of two blocks with user
/// data between them, and a subtitle of one block with two bytes of text.
pub(crate) fn sample_file() -> [u8; 1664] {
    let mut file = [0; 1664];
    put(&mut file, 0, &gsi());
    put(&mut file, 238, b"9999988888".as_slice());
    put(&mut file, 1024, &block(&COMMENT, b"in passing"));
    put(&mut file, 1152, &block(&FIRST, &[b'A'; 112]));
    put(&mut file, 1280, &block(&USER_DATA, b"anything"));
    put(&mut file, 1408, &block(&LAST, &[b'B'; 112]));
    put(&mut file, 1536, &block(&ALONE, b"Hi"));
    file
}

/// Returns the number of subtitles in a source, the fault after them, and the block number at the
/// end.
pub(crate) fn read_all<S: Source>(source: &mut S) -> (u32, Option<StlFault>, u32)
    requires { CanFail (S.failure_count source.old) }
{
    let mut reader = match StlReader::open(source) {
        Ok(reader) => reader,
        Err(fault) => return (0, Some(fault), 0),
    };
    for count in 0..100 {
        match reader.next(source) {
            Ok(Some(_)) => {}
            Ok(None) => return (count, None, reader.block()),
            Err(fault) => return (count, Some(fault), reader.block()),
        }
    }
    (100, None, reader.block())
}
