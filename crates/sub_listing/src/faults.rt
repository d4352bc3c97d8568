//! Converts faults to the lines that report them.
ghost use Rattle.std.specs.Prelude.{◌≡◌};
ghost use Rattle.ttx_pes.specs.Fault.{pes_code};
ghost use Rattle.ttx_pes.specs.declared.fault.PesFault.TheVariants.{Read, Write};
ghost use Rattle.sub_listing.specs.Faults.{check_line, packet_line, stl_line, usage_line};
ghost use Rattle.sub_listing.specs.Faults.{write_line};
ghost use Rattle.sub_listing.specs.FaultLine.{line_with, counted_from};
ghost use Rattle.sub_rules.specs.declared.fault.CheckFault.TheVariants.{Pes};
ghost use Rattle.sub_rules.specs.declared.fault_place.FaultPlace.TheVariants.{Nowhere};

use crate::fault_line::{FaultLine, Kind};
use crate::normal::InputFault;
use crate::packet::PacketFault;
use crate::writing::WriteFault;
use stl_file::{NormalFault, StlFault};
use stl_rows::LoadFaultKind;
use sub_io::FaultCode;
use sub_plan::PlanFault;
use sub_request::UsageFault;
use sub_rules::{CheckFault, FaultPlace};
use ttx_pes::{FailedAt, PesFault};

/// Returns the line of a fault at a block of a subtitle file: `refused`, or `fault` if the source
/// failed.
pub fn fault_line_of_stl(fault: StlFault, block: u32) -> FaultLine
    ensures { result ≡ stl_line fault block }
{
    let kind = match fault {
        StlFault::Read => Kind::Fault,
        _ => Kind::Refused,
    };
    FaultLine {
        kind,
        code: fault.code(),
        place: FaultPlace::Block { block },
        first: 0,
    }
}

/// Returns the line of a fault of a subtitle file, a PES file or a recording, which a check or
/// another command found: `refused`, or `fault` if a source failed or memory ran out.
pub fn fault_line_of_check(fault: CheckFault) -> FaultLine
    ensures { result ≡ check_line fault }
{
    let kind = match fault {
        CheckFault::Pes {
            fault: PesFault::Read,
            ..
        } => Kind::Fault,
        CheckFault::Subtitles(load) => match load.kind {
            LoadFaultKind::File(StlFault::Read) | LoadFaultKind::Memory => Kind::Fault,
            _ => Kind::Refused,
        },
        _ => Kind::Refused,
    };
    FaultLine {
        kind,
        code: fault.code(),
        place: fault.place(),
        first: 0,
    }
}

/// Returns the line for a failed read of a PES file or a recording, which names the PES packet
/// `at.pes`, counted from 0.
pub fn fault_line_of_failed_read(at: FailedAt) -> FaultLine
    ensures { result ≡ counted_from at.pes (check_line (Pes 0 Read)) }
{
    let fault = CheckFault::Pes {
        fault: PesFault::Read,
        pes: 0,
    };
    fault_line_of_check(fault).counted_from(at.pes)
}

/// Returns the line for a failure of the output file of `extract`.
pub fn fault_line_of_failed_write() -> FaultLine
    ensures { result ≡ line_with Kind.Fault (pes_code Write) Nowhere }
{
    fault_line_without_place(Kind::Fault, PesFault::Write.code())
}

/// Returns the line of a fault of a Teletext packet.
pub fn fault_line_of_packet(fault: PacketFault) -> FaultLine
    ensures { result ≡ packet_line fault }
{
    fault_line_without_place(Kind::Refused, fault.code())
}

/// Returns the line of a fault of `schedule` or `normal`.
pub fn fault_line_of_write(fault: WriteFault) -> FaultLine
    ensures { result ≡ write_line fault }
{
    match fault {
        WriteFault::Input(InputFault::Read { block }) => fault_line_of_stl(StlFault::Read, block),
        WriteFault::Input(InputFault::Memory) => usage_fault_line(&UsageFault::Memory),
        WriteFault::Load(fault) => fault_line_of_check(CheckFault::Subtitles(fault)),
        WriteFault::Normal(NormalFault::Refused { fault, block }) => fault_line_of_stl(
            fault, block,
        ),
        WriteFault::Normal(fault) => fault_line_without_place(Kind::Fault, fault.code()),
        WriteFault::Plan(fault) => {
            let kind = match fault {
                PlanFault::NoSubtitles => Kind::Refused,
                PlanFault::Write => Kind::Fault,
            };
            fault_line_without_place(kind, fault.code())
        }
    }
}

/// Returns the line about invalid arguments, a file that can't or must not be opened or created, or
/// a lack of memory.
pub fn usage_fault_line(fault: &UsageFault) -> FaultLine
    ensures { result ≡ usage_line fault.now }
{
    let kind = match fault {
        UsageFault::Open | UsageFault::Memory => Kind::Fault,
        _ => Kind::Usage,
    };
    fault_line_without_place(kind, fault.code())
}

// Returns the line of a fault that has no place.
fn fault_line_without_place(kind: Kind, code: FaultCode) -> FaultLine
    ensures { result ≡ line_with kind code Nowhere }
{
    let place = FaultPlace::Nowhere;
    FaultLine {
        kind,
        code,
        place,
        first: 0,
    }
}
