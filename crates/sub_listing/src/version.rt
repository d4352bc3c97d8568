//! `--version`: the name and the version of the program.
ghost use Rattle.std.specs.Prelude.{◌≡◌, ◌+◌};
ghost use Rattle.sub_listing.specs.DeviceCall.{CanFail, CountsFault, sink_call};
ghost use Rattle.sub_listing.specs.Listing.{PrintsOrFails, done};
ghost use Rattle.sub_listing.specs.Version.{version_text};

use crate::printing::print_done;
use crate::status::Status;
use sub_io::Sink;

// The line that `--version` prints: the name of the program, and the version in the file VERSION.
const VERSION: &[u8] = b"subttx 4.0.0\n";

/// Prints the name and the version of the program.
pub fn print_version<K: Sink>(out: &mut K) -> Status
    requires { CanFail (K.failure_count out.old) }
    ensures printed { PrintsOrFails (sink_call K.contents K.failure_count out.old out.new)
        (done version_text) result }
    ensures count { CountsFault K.failure_count out.old result out.new }
    ensures fault { result ≡ Status.Fault → K.failure_count out.new ≡ K.failure_count out.old + 1 }
{
    print_done(VERSION, out)
}
