//! What holds of documents and canonical texts, apart from any call.

ghost use Rattle.std.specs.Prelude.{◌≡◌, ◌≢◌, ◌↔◌, ◌≤◌, ℕ, List, length, Ok, Err};
ghost use Rattle.profile_text.specs.declared.profile.Profile.{Profile};
ghost use Rattle.profile_text.specs.Reading.{most_bytes, reading_of};
ghost use Rattle.profile_text.specs.Reads.{HasKnownCaps, HasWholeFilter, Reads};
ghost use Rattle.profile_text.specs.Text.{text_of};
ghost use Rattle.no_memory.specs.Witness.{witness};

use crate::fault::DocFault;
use seccomp_doc::FilterFault;

/// A document reads as a profile exactly where it stands for the profile.
pub fn documents_stand_for_profiles()
    ensures { (bytes : List ℕ) (p : Profile) → (reading_of bytes ≡ Ok p) ↔ Reads bytes p }
{}

/// The canonical text of a profile reads as the profile, where it isn't too long.
pub fn canonical_texts_read_back()
    ensures { (p : Profile) → HasKnownCaps p.caps → HasWholeFilter p
        → length (text_of p) ≤ most_bytes → reading_of (text_of p) ≡ Ok p }
{}

/// What a document reads as is read again from its canonical text.
pub fn canonical_texts_keep_the_reading()
    ensures { (bytes : List ℕ) (p : Profile) → reading_of bytes ≡ Ok p
        → reading_of (text_of p) ≡ Ok p }
{}

/// Want of memory is never what bytes read as, and neither is it a fault of their filter.
pub fn want_of_memory_is_no_reading()
    ensures alone { (bytes : List ℕ) → reading_of bytes ≢ Err (DocFault.NoMemory witness) }
    ensures of_a_filter { (bytes : List ℕ)
        → reading_of bytes ≢ Err (DocFault.Filter (FilterFault.NoMemory witness)) }
{}
