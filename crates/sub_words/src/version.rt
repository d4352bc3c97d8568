//! Tests whether the command-line arguments request the version.
ghost use Rattle.std.specs.Prelude.{◌≡◌};
ghost use Rattle.sub_words.specs.Commands.{texts_of};
ghost use Rattle.sub_words.specs.Version as specs;

/// Returns whether arguments request the version: the program's name is followed only by a word for
/// the version.
#[tactic(auto, unfolding(crate::specs::Version::requests_version))]
pub fn requests_version(arguments: &[&str]) -> bool
    ensures { result ≡ specs.requests_version (texts_of arguments.now) }
{
    match arguments.get(1) {
        Some(word) => arguments.len() == 2 && is_version_word(word),
        None => false,
    }
}

/// Returns whether a word requests the version.
pub fn is_version_word(word: &str) -> bool
    ensures { result ≡ specs.is_version_word word.now }
{
    word == "--version" || word == "-V"
}
