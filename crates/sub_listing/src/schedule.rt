//! `schedule STL PES`: writes the schedule of a subtitle file.
ghost use Rattle.std.specs.Prelude.{◌≡◌, OnOk, codes, true};
ghost use Rattle.sub_io.specs.Device.{CanFail, CountsFailureIf, failed};
ghost use Rattle.stl_rows.specs.Layout.{drawing_within};
ghost use Rattle.sub_plan.specs.Fault.{is_plan_write_failure};
ghost use Rattle.sub_listing.specs.DeviceCall.{CountsFault, sink_call, source_call};
ghost use Rattle.sub_listing.specs.Writing.{EndsWithFileResult, Schedules, WritesSchedule};

use crate::status::Status;
use crate::writing::{Work, WriteFault, write};
use std::alloc::Global;
use stl_file::Scope;
use stl_rows::{Drawing, Layout, National, Programme, load};
use sub_io::{Close, Sink, Source};
use sub_plan::{Options, PlanFault, schedule};

/// Writes the schedule of a subtitle file, one PES packet for each page transmission (EN 300 472),
/// and prints the number of page transmissions, or the reason why the complete schedule was not
/// stored.
///
/// The programme is loaded before anything is written, and the line with the number is printed
/// after the system has stored the file. Returns `Fault` if a device failed or memory ran out.
pub fn write_schedule<S: Source, F: Close, K: Sink>(
    alloc: Global,
    drawing: Drawing,
    options: &Options,
    serial: bool,
    input: &mut S,
    file: &mut F,
    out: &mut K,
) -> Status
    requires input { CanFail (S.failure_count input.old) }
    requires file { CanFail (F.failure_count file.old) }
    requires out { CanFail (K.failure_count out.old) }
    ensures work { EndsWithFileResult
        (source_call S.remaining S.failure_count input.old input.new)
        (sink_call F.contents F.failure_count file.old file.new)
        (sink_call K.contents K.failure_count out.old out.new) result
        (codes " transmissions\n")
        (Schedules drawing options.now serial) }
    ensures input_count { CountsFault S.failure_count input.old result input.new }
    ensures file_count { CountsFault F.failure_count file.old result file.new }
    ensures out_count { CountsFault K.failure_count out.old result out.new }
    ensures buffered { result ≡ Status.Done → F.buffered file.new ≡ 0 }
    ensures stored { result ≡ Status.Done → F.is_stored file.new ≡ true }
{
    let Drawing {
        national,
        layout,
        scope,
    } = drawing;
    let work = ScheduleWork {
        options,
        serial,
        national,
        layout,
        scope,
    };
    write(alloc, &work, b" transmissions\n", input, file, out)
}

/// Writes the output file of the command `schedule`.
#[derive(Drop)]
pub struct ScheduleWork<'a> {
    /// The options of the schedule: the page, the repeat bound and the PTS of frame 0.
    pub options: &'a Options,
    /// Whether the page headers have C11 set, for serial mode.
    pub serial: bool,
    /// The national option for the text of the subtitles.
    pub national: National,
    /// The layout for the text of the subtitles.
    pub layout: Layout,
    /// The part of the subtitle file to use.
    pub scope: Scope,
}

impl<'a> Work for ScheduleWork<'a> {
    ghost is_written_as_specified = { λ w. Schedules (drawing_within w.national w.layout w.scope)
        w.options.now
        w.serial };

    fn work<S: Source, F: Close>(
        &self,
        alloc: Global,
        input: &mut S,
        file: &mut F,
    ) -> Result<u32, WriteFault> {
        match load(alloc, input, self.national, self.layout, self.scope) {
            Ok(programme) => write_planned_schedule(
                &programme,
                self.options,
                self.serial,
                file,
            ).map_err(WriteFault::Plan),
            Err(fault) => Err(WriteFault::Load(fault)),
        }
    }
}

// Writes the schedule of a programme, and stores the file if there is no fault.
fn write_planned_schedule<F: Close>(
    programme: &Programme,
    options: &Options,
    serial: bool,
    file: &mut F,
) -> Result<u32, PlanFault>
    requires { CanFail (F.failure_count file.old) }
    ensures written { WritesSchedule programme.now options.now serial
        (F.contents file.old) (F.contents file.new) result }
    ensures count { CountsFailureIf F.failure_count file.old (failed is_plan_write_failure result)
        file.new }
    ensures buffered { OnOk result (F.buffered file.new ≡ 0) }
    ensures stored { OnOk result (F.is_stored file.new ≡ true) }
{
    let count = schedule(programme, options, serial, file)?;
    match file.store() {
        Ok(()) => Ok(count),
        Err(_) => Err(PlanFault::Write),
    }
}
