//! The normal form of a subtitle file: its subtitles in the fewest blocks, with the correct counts.

ghost use Rattle.std.specs.Prelude.{◌≡◌, ◌≢◌, ◌+◌, ◌<◌, ◌≤◌, ◌++◌, length, true};
ghost use Rattle.std.specs.Prelude.{IfErr, IfOk, Ok, is_ok};
ghost use Rattle.std.specs.List.{concat};
ghost use Rattle.sub_io.specs.Device.{CanFail, CountsFailure, CountsFailureIf, Writes, failed};
ghost use Rattle.stl_file.specs.declared.fault.NormalFault.TheVariants.{Write};
ghost use Rattle.stl_file.specs.declared.progress.Progress.TheVariants.{Reading};
ghost use Rattle.stl_file.specs.Fault.{is_normal_write_failure};
ghost use Rattle.stl_file.specs.NormalForm.{NormalAnswers, blocks_of_subtitles, blocks_of};
ghost use Rattle.stl_file.specs.NormalForm.{subtitles_of};
ghost use Rattle.stl_file.specs.NormalCounts.{accepted_subtitles, normal_counts};
ghost use Rattle.stl_file.specs.NormalCounts.{subtitles_from_call};
ghost use Rattle.stl_file.specs.Reader.{outcome_from, remaining_outcome};
ghost use Rattle.stl_file.specs.Tti.{max_blocks};

use crate::counts::Counts;
use crate::fault::{NormalFault, StlFault};
use crate::gsi::Gsi;
use crate::reader::StlReader;
use crate::subtitle::Subtitle;
use crate::writer::write_subtitle;
use sub_io::{Failed, MemSource, Sink, put_all};

/// Writes the normal form of a subtitle file, and returns the number of its subtitles.
///
/// The normal form is the GSI block with TNB and TNS set to the numbers of blocks and subtitles
/// that follow, then each subtitle in the form of `write_subtitle`. Comments and user data are
/// dropped. The whole file is read first.
///
/// # Errors
///
/// Returns `Refused` with the file's first fault and its block if the file is rejected; nothing was
/// written. Returns `Write` if the sink fails; a prefix of the normal form was written.
pub fn normal<K: Sink>(file: &[u8], sink: &mut K) -> Result<u32, NormalFault>
    requires { CanFail (K.failure_count sink.old) }
    ensures answer { NormalAnswers file.now (K.contents sink.old) (K.contents sink.new) result }
    ensures count { CountsFailureIf K.failure_count sink.old (failed is_normal_write_failure result)
        sink.new }
{
    let mut source = MemSource::new(file);
    let reader = match StlReader::open(&mut source) {
        Ok(reader) => reader,
        Err(fault) => return Err(NormalFault::Refused { fault, block: 0 }),
    };
    let mut gsi = reader.gsi();
    let (_, body) = file.split_at(1024);
    let counts = compute_counts(gsi, body)?;
    gsi.set_counts(counts.tnb, counts.tns);
    write_normal_form(gsi, body, sink)?;
    Ok(counts.tns)
}

// Reads the blocks after the GSI block. Returns the counts of the normal form, or the first fault.
#[tactic(auto, using(crate::proofs::NormalCountsLemmas::judging))]
fn compute_counts(gsi: Gsi, body: &[u8]) -> Result<Counts, NormalFault>
    ensures exact { normal_counts (subtitles_of (outcome_from 0 body.now)) ≡ result }
    ensures kind { IfErr result (λ fault. fault ≢ Write) }
    ensures few { IfOk result (λ counts. (counts.tnb < 100000) × (counts.tns < 100000)) }
{
    let mut source = MemSource::new(body);
    let mut reader = StlReader::at_first_block(gsi);
    let mut subtitle = Subtitle::empty();
    let mut counts = Counts { tnb: 0, tns: 0 };
    'subtitles: loop {
        match read_next_subtitle(&mut reader, &mut source, &mut subtitle) {
            Ok(true) => {
                counts.tnb += block_count_of(&subtitle);
                counts.tns += 1;
            }
            Ok(false) => return Ok(counts),
            Err(fault) => {
                return Err(NormalFault::Refused {
                    fault,
                    block: reader.block(),
                });
            }
        }
    }
}

// Reads the next subtitle, and returns whether there is one. A subtitle in the file has at least as
// many blocks as its normal form, so the counts cannot overflow.
fn read_next_subtitle(
    reader: &mut StlReader,
    source: &mut MemSource,
    subtitle: &mut Subtitle,
) -> Result<bool, StlFault>
    requires { reader.old.progress ≡ Reading }
    ensures exact { subtitles_of (remaining_outcome reader.old source.old)
        ≡ subtitles_from_call result subtitle.new reader.new.block
        (subtitles_of (remaining_outcome reader.new source.new)) }
    ensures reading { result ≡ Ok true → reader.new.progress ≡ Reading }
    ensures few { result ≡ Ok true → reader.new.block ≤ max_blocks }
    ensures room { result ≡ Ok true →
        reader.old.block + length (blocks_of subtitle.new) ≤ reader.new.block }
{
    reader.next_into(source, subtitle)
}

// Returns the number of blocks in the normal form of a subtitle.
#[tactic(auto, using(crate::proofs::BlocksOfLemmas::one_block_more_than_chunks))]
fn block_count_of(subtitle: &Subtitle) -> u32
    ensures { result ≡ length (blocks_of subtitle.now) }
{
    (subtitle.text().len().saturating_sub(1) / 112) as u32 + 1
}

// Writes the GSI block and the blocks of all subtitles.
#[tactic(auto, using(sub_io::proofs::DeviceLemmas::prefixes))]
fn write_normal_form<K: Sink>(gsi: Gsi, body: &[u8], sink: &mut K) -> Result<(), Failed>
    requires accepted { is_ok (subtitles_of (outcome_from 0 body.now)) ≡ true }
    requires count { CanFail (K.failure_count sink.old) }
    ensures bytes { Writes (K.contents sink.old) (K.contents sink.new)
        (gsi ++ concat (blocks_of_subtitles
        (accepted_subtitles (subtitles_of (outcome_from 0 body.now))))) result }
    ensures count { CountsFailure (K.failure_count sink.old) result (K.failure_count sink.new) }
{
    put_all(sink, gsi.bytes().as_slice())?;
    write_subtitles(gsi, body, sink)
}

// Reads all blocks after the GSI block again, and writes the subtitles in their normal form.
#[tactic(auto, using(crate::proofs::BlocksOfLemmas::one_block_more_than_chunks))]
fn write_subtitles<K: Sink>(gsi: Gsi, body: &[u8], sink: &mut K) -> Result<(), Failed>
    requires accepted { is_ok (subtitles_of (outcome_from 0 body.now)) ≡ true }
    requires count { CanFail (K.failure_count sink.old) }
    ensures bytes { Writes (K.contents sink.old) (K.contents sink.new)
        (concat (blocks_of_subtitles (accepted_subtitles (subtitles_of (outcome_from 0 body.now)))))
        result }
    ensures count { CountsFailure (K.failure_count sink.old) result (K.failure_count sink.new) }
{
    let mut source = MemSource::new(body);
    let mut reader = StlReader::at_first_block(gsi);
    let mut subtitle = Subtitle::empty();
    'subtitles: loop {
        match read_next_subtitle(&mut reader, &mut source, &mut subtitle) {
            Ok(true) => {
                write_subtitle(&subtitle, sink)?;
            }
            Ok(false) => return Ok(()),
            // The first pass over the file has found no fault, so the second pass finds none.
            Err(_) => unreachable!(),
        }
    }
}
