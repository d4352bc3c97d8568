//! The command `--help`, which explains how to use the program.
ghost use Rattle.std.specs.Prelude.{◌≡◌, ◌+◌};
ghost use Rattle.sub_listing.specs.DeviceCall.{CanFail, CountsFault, sink_call};
ghost use Rattle.sub_listing.specs.Help.{help_text};
ghost use Rattle.sub_listing.specs.Listing.{PrintsOrFails, done};

use crate::printing::print_done;
use crate::status::Status;
use sub_io::Sink;

// The text of `--help`. The script `subttx` prints the same text.
#[rattlefmt::skip]
const HELP: &[u8] = b"usage: subttx COMMAND FILES [options]

  check STL PES          accepts a transmission, or names the first broken rule
                         and its place; --all lists every fault, and the frames
                         that may stay on air
  schedule STL PES       makes a transmission from a subtitle file
  listen PES --at TIME   prints what a receiver holds at the end of that frame
  extract TS PES --pid P writes the PES packets of a PID of a transport stream
  show STL               lists the subtitles of a file
  normal IN OUT          writes a subtitle file in its normal form
  packets PES            lists PES packets and their data units
  packet HEX             explains one Teletext packet of 42 bytes
  survey RECORDING       lists what there is in a recording, for tools
  --help                 prints this text
  --version              prints the name and the version

  --page 888   --every 250   --origin 0   --option english   where left out
  --complete   --within N   --all   --pace K   --keeping     for check
  --serial                                                   for schedule
  --layout TEXT   --open   --from TIME   --to TIME           how STL is drawn, a part
  --pid P   --packet-size 188   --pes I-J                    a transport stream, a part

STL is an EBU STL file, PES a file of DVB Teletext PES packets. To look for PID,
clock and PES packets: subttx-qc STL RECORDING. All options: man subttx; the
manual: lib/subttx/docs/MANUAL.md. In the repository these are tools/qc,
docs/subttx.1 and docs/MANUAL.md.

Exit status: 0 accepted or done; 1 refused; 2 not answered (usage, device, memory).
";

/// Prints the text of `--help`.
pub fn print_help<K: Sink>(out: &mut K) -> Status
    requires { CanFail (K.failure_count out.old) }
    ensures printed { PrintsOrFails (sink_call K.contents K.failure_count out.old out.new)
        (done help_text) result }
    ensures count { CountsFault K.failure_count out.old result out.new }
    ensures fault { result ≡ Status.Fault → K.failure_count out.new ≡ K.failure_count out.old + 1 }
{
    print_done(HELP, out)
}
