//! `show STL`: lists the subtitles of a file.
ghost use Rattle.std.specs.Prelude.{◌≡◌, ◌+◌, ◌<◌, [], None, false};
ghost use Rattle.sub_listing.specs.DeviceCall.{CanFail, CountsFault, sink_call, source_call};
ghost use Rattle.sub_listing.specs.Lines.{subtitle_line};
ghost use Rattle.sub_listing.specs.Listing.{PrintsListing};
ghost use Rattle.sub_listing.specs.ShowListing.{IsReady, ListsFrom, ListsSubtitles, blocks_left};

use crate::faults::fault_line_of_stl;
use crate::lines::{push_number, push_text, push_text_digits, push_time};
use crate::listing::{Lister, Text, end_with_count, end_with_fault_line, list};
use crate::printer::Printer;
use crate::status::Status;
use stl_file::{StlReader, Subtitle, five_digits_of};
use sub_io::{Flush, Source};

/// Lists the subtitles of a file (EBU Tech 3264), and then their number, or the line of the fault
/// that ends the listing.
///
/// If the file is rejected, the lines printed before remain. Returns `Fault` if a device failed.
pub fn list_subtitles<S: Source, K: Flush>(source: &mut S, out: &mut K) -> Status
    requires source { CanFail (S.failure_count source.old) }
    requires out { CanFail (K.failure_count out.old) }
    ensures listing { PrintsListing ListsSubtitles
        (source_call S.remaining S.failure_count source.old source.new)
        (sink_call K.contents K.failure_count out.old out.new) result }
    ensures source_count { CountsFault S.failure_count source.old result source.new }
    ensures out_count { CountsFault K.failure_count out.old result out.new }
    ensures fault { result ≡ Status.Fault
        → S.failure_count source.old + K.failure_count out.old
        < S.failure_count source.new + K.failure_count out.new }
{
    list(&mut SubtitleLister::new(), source, out)
}

/// Lists subtitles.
#[derive(Drop)]
pub struct SubtitleLister {
    // The reader of the subtitle file; `None` until the GSI block, for which no line is printed,
    // was read.
    reader: Option<StlReader>,
    count: u32,
}

impl SubtitleLister {
    /// Creates a lister at the start of a subtitle file.
    pub fn new() -> SubtitleLister
        ensures reader { result.reader ≡ None }
        ensures count { result.count ≡ 0 }
    {
        SubtitleLister {
            reader: None,
            count: 0,
        }
    }
}

impl<S: Source> Lister<S> for SubtitleLister {
    ghost ready = { λ l. IsReady l.reader l.count };

    ghost items_left = { λ l. blocks_left l.reader };

    ghost lists = { λ l. ListsFrom l.reader l.count };

    ghost can_be_followed = { false };

    ghost known = { λ s. S.remaining s };

    ghost left = { λ s. S.remaining s };

    ghost failure_count = { λ s. S.failure_count s };

    ghost device = { λ s. [] };

    fn next<K: Flush>(
        &mut self,
        input: &mut S,
        _printer: &mut Printer<'_, K>,
        text: &mut Text,
    ) -> Option<Status> {
        let Some(reader) = &mut self.reader else {
            return match StlReader::open(input) {
                Ok(reader) => {
                    self.reader = Some(reader);
                    None
                }
                Err(fault) => end_with_fault_line(text, &fault_line_of_stl(fault, 0)),
            };
        };
        match reader.next(input) {
            Ok(Some(subtitle)) => {
                push_subtitle(text, &subtitle);
                self.count += 1;
                None
            }
            Ok(None) => end_with_count(text, self.count, b" subtitles\n"),
            Err(fault) => end_with_fault_line(text, &fault_line_of_stl(fault, reader.block())),
        }
    }
}

// Appends the line of a subtitle.
fn push_subtitle(text: &mut Text, subtitle: &Subtitle)
    requires { text.old.items ≡ [] }
    ensures items { text.new.items ≡ subtitle_line subtitle.now }
{
    push_text(text, &five_digits_of(u32::from(subtitle.sn())));
    push_text(text, b" ");
    push_time(text, subtitle.tci());
    push_text(text, b" ");
    push_time(text, subtitle.tco());
    push_number(text, b" vp ", u64::from(subtitle.vp()));
    push_number(text, b" jc ", u64::from(subtitle.jc()));
    push_text(text, b" text ");
    push_text_digits(text, subtitle.text());
    push_text(text, b"\n");
}
