//! The file that a word names for a document.

ghost use Rattle.std.specs.Prelude.{◌≡◌};
ghost use Rattle.reading_commands.specs.Documents.{file_of};

/// The path of the file that a word names for a document: `-` is standard input. A file of that name
/// is `./-`.
#[tactic(auto, unfolding(crate::specs::Documents::file_of))]
pub(crate) fn file_of(word: &str) -> &str
    ensures { result.now ≡ file_of word.now }
{
    if word == "-" { "/dev/stdin" } else { word }
}
