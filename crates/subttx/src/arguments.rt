//! Collects the arguments of the command line that the system returned.
ghost use Rattle.std.specs.Prelude.{◌≡◌, IfErr, IfOk, IfSome, Ok, map, string_bytes};
ghost use Rattle.sub_words.specs.Commands.{texts_of};
ghost use Rattle.subttx.specs.Words.{IsUnparsedFault, arguments_given};

use std::alloc::Global;
use std::env::Args;
use std::io;
use std::io::ErrorKind;
use sub_request::UsageFault;

/// Returns the arguments of the command line.
///
/// # Errors
///
/// Returns `Memory` if memory ran out, and `Words` if the system returned no arguments for another
/// reason, such as an argument that is not valid text.
pub fn collect_arguments(alloc: Global, given: io::Result<Args>) -> Result<Vec<String>, UsageFault>
    ensures arguments { IfOk result (λ arguments.
        arguments_given given ≡ Ok (map (λ word. string_bytes word) arguments.items)) }
    ensures lost { IfErr result (IsUnparsedFault (arguments_given given)) }
{
    match given {
        Ok(arguments) => match arguments.collect(alloc) {
            Ok(arguments) => Ok(arguments),
            Err(_) => Err(UsageFault::Memory),
        },
        Err(error) => match error.kind() {
            ErrorKind::OutOfMemory => Err(UsageFault::Memory),
            _ => Err(UsageFault::Words),
        },
    }
}

/// Returns the arguments as texts; `None` if memory runs out.
pub fn texts_of(alloc: Global, arguments: &[String]) -> Option<Vec<&str>>
    ensures { IfSome result (λ texts.
        texts_of texts.items ≡ map (λ word. string_bytes word) arguments.now) }
{
    let mut texts = Vec::new(alloc);
    for word in arguments {
        let Ok(()) = texts.push(word.as_str()) else {
            return None;
        };
    }
    Some(texts)
}
