//! `normal IN OUT`: writes the normal form of a subtitle file.
ghost use Rattle.std.specs.Prelude.{◌≡◌, ◌<◌, IfErr, IfOk, List, OnOk, codes, take, true, ℕ};
ghost use Rattle.sub_io.specs.Device.{CanFail, CountsFailureIf, failed};
ghost use Rattle.sub_io.specs.Reading.{IfKnown};
ghost use Rattle.stl_file.specs.Fault.{is_normal_write_failure};
ghost use Rattle.stl_file.specs.NormalForm.{NormalAnswers};
ghost use Rattle.stl_file.specs.Reader.{block_of_byte};
ghost use Rattle.sub_listing.specs.DeviceCall.{CountsFault, sink_call, source_call};
ghost use Rattle.sub_listing.specs.Writing.{EndsWithFileResult, Normalizes, ReportsRead};
ghost use Rattle.sub_listing.specs.Writing.{is_input_source_failure};
ghost use Rattle.sub_listing.specs.Writing.{read_limit};

use crate::status::Status;
use crate::writing::{Work, WriteFault, write};
use std::alloc::{Allocator, Global};
use stl_file::{NormalFault, normal};
use sub_io::{Close, Sink, Source};

/// One byte more than the longest subtitle file, which has a GSI block and 99,999 TTI blocks. Bytes
/// after this limit can't change the result.
const READ_LIMIT: usize = 12_800_897;

/// The maximum number of bytes of one read from the input.
const PULL_CAPACITY: usize = 4096;

/// The reason why the input of `normal` was not read completely.
#[derive(Clone, Copy, Debug, PartialEq, Eq)]
pub enum InputFault {
    /// The source failed while a block was read.
    Read {
        /// The number of the block with the byte that could not be read, counted from 1; 0 is the
        /// GSI block.
        block: u32,
    },
    /// An allocation failed.
    Memory,
}

/// Writes the normal form of a subtitle file (not defined by a standard), and prints the number of
/// its subtitles, or the reason why the complete normal form was not stored.
///
/// The input is read to its end, or up to the limit after which bytes can't change the result,
/// before anything is written. The line with the number is printed after the system has stored the
/// file. Returns `Fault` if a device failed or memory ran out.
pub fn write_normal<S: Source, F: Close, K: Sink>(
    alloc: Global,
    input: &mut S,
    file: &mut F,
    out: &mut K,
) -> Status
    requires input { CanFail (S.failure_count input.old) }
    requires file { CanFail (F.failure_count file.old) }
    requires out { CanFail (K.failure_count out.old) }
    ensures work { EndsWithFileResult
        (source_call S.remaining S.failure_count input.old input.new)
        (sink_call F.contents F.failure_count file.old file.new)
        (sink_call K.contents K.failure_count out.old out.new) result
        (codes " subtitles\n") Normalizes }
    ensures input_count { CountsFault S.failure_count input.old result input.new }
    ensures file_count { CountsFault F.failure_count file.old result file.new }
    ensures out_count { CountsFault K.failure_count out.old result out.new }
    ensures buffered { result ≡ Status.Done → F.buffered file.new ≡ 0 }
    ensures stored { result ≡ Status.Done → F.is_stored file.new ≡ true }
{
    write(alloc, &NormalWork, b" subtitles\n", input, file, out)
}

/// Writes the output file of the command `normal`.
#[derive(Drop)]
pub struct NormalWork;

impl Work for NormalWork {
    ghost is_written_as_specified = { λ w. Normalizes };

    fn work<S: Source, F: Close>(
        &self,
        alloc: Global,
        input: &mut S,
        file: &mut F,
    ) -> Result<u32, WriteFault> {
        let bytes = match read_input(alloc, input) {
            Ok(bytes) => bytes,
            Err(fault) => return Err(WriteFault::Input(fault)),
        };
        match write_normal_form(bytes.as_slice(), file) {
            Ok(count) => Ok(count),
            Err(fault) => Err(WriteFault::Normal(fault)),
        }
    }
}

// Writes the normal form of a subtitle file, given its first bytes, and stores the output file if
// there is no fault.
fn write_normal_form<F: Close>(bytes: &[u8], file: &mut F) -> Result<u32, NormalFault>
    requires { CanFail (F.failure_count file.old) }
    ensures answer { (s : List ℕ) → bytes.now ≡ take read_limit s
        → NormalAnswers s (F.contents file.old) (F.contents file.new) result }
    ensures count { CountsFailureIf F.failure_count file.old (failed is_normal_write_failure result)
        file.new }
    ensures buffered { OnOk result (F.buffered file.new ≡ 0) }
    ensures stored { OnOk result (F.is_stored file.new ≡ true) }
{
    match normal(bytes, file) {
        Ok(count) => match file.store() {
            Ok(()) => Ok(count),
            Err(_) => Err(NormalFault::Write),
        },
        Err(fault) => Err(fault),
    }
}

/// Reads the input of `normal` to its end, or up to the limit after which bytes can't change the
/// result. Accepts any allocator, so that a test can make an allocation fail.
///
/// # Errors
///
/// Returns `Read` with the block of the byte that could not be read, or `Memory` if an allocation
/// failed.
pub fn read_input<A: Allocator + Drop, S: Source>(
    alloc: A,
    input: &mut S,
) -> Result<Vec<u8, A>, InputFault>
    requires { CanFail (S.failure_count input.old) }
    ensures bytes { IfKnown (S.remaining input.old) (λ bytes.
        IfOk result (λ v. v.items ≡ take read_limit bytes)) }
    ensures read { IfErr result (ReportsRead (S.remaining input.old) (S.remaining input.new)) }
    ensures count { CountsFailureIf S.failure_count input.old (failed is_input_source_failure
        result) input.new }
{
    let mut bytes = Vec::new(alloc);
    let mut room = [0; PULL_CAPACITY];
    'chunks: while bytes.len() < READ_LIMIT {
        let chunk = &mut room[..PULL_CAPACITY.min(READ_LIMIT - bytes.len())];
        match input.pull(chunk) {
            Ok(0) => return Ok(bytes),
            Ok(len) => {
                let Ok(()) = bytes.extend_from_slice(&chunk[..len]) else {
                    return Err(InputFault::Memory);
                };
            }
            Err(_) => {
                let block = block_of_byte(bytes.len());
                return Err(InputFault::Read { block });
            }
        }
    }
    Ok(bytes)
}

// Returns the number of the block that contains the byte at the index `len`: block 0 has 1024
// bytes, each later block has 128 bytes.
fn block_of_byte(len: usize) -> u32
    requires { len < read_limit }
    ensures { result ≡ block_of_byte len }
{
    (len.saturating_sub(1024 - 128) / 128) as u32
}
