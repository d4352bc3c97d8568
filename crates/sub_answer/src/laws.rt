//! Laws about runs with files in memory, whose bytes are known.
//!
//! The function does nothing: its contract is a law about the definitions of `specs/`.
ghost use Rattle.sub_answer.specs.Ending.{BufferHoldsOneLineOnly};
ghost use Rattle.sub_answer.specs.FilesInMemory.{LawOfFilesInMemory};

use sub_io::Sink;

/// If a check was answered with files in memory, its status is `Done` exactly if their selected
/// bytes are accepted, unless the output fails or memory runs out.
pub fn law_of_files_in_memory<K: Sink>()
    ensures { LawOfFilesInMemory
        (BufferHoldsOneLineOnly K.contents K.failure_count K.is_push) }
{}
