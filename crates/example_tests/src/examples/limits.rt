//! The limits that documents name, each by its digits.

ghost use Rattle.std.specs.Prelude.{◌≡◌, ◌++◌, [], List, None, Some, ℕ, codes, length};
ghost use Rattle.std.specs.Prelude.{replicate, true, false};
ghost use Rattle.httparse.specs.Grammar.{ReadsRequest, RequestHead};
ghost use Rattle.seccomp_doc.specs.Checks.{has_too_many, is_large};
ghost use Rattle.seccomp_doc.specs.Word.{is_arch, is_call_name, is_flag};
ghost use Rattle.profile_text.specs.Reading.{most_bytes as most_of_a_document};
ghost use Rattle.office_words.specs.Limits.{max_listed, max_revisions};
ghost use Rattle.office_words.specs.Words.{is_token, is_word};
ghost use Rattle.sealed_log.specs.Sealed.{longest};
ghost use Rattle.json_requests.specs.Members.{if_revision};
ghost use Rattle.json_requests.specs.Requests.{max_line};
ghost use Rattle.http_requests.specs.Ends.{most_head};
ghost use Rattle.http_requests.specs.Fields.{most_body};
ghost use Rattle.http_requests.specs.Heads.{IsHeadOf};
ghost use Rattle.http_requests.specs.Numbers.{revision_number_of};
ghost use Rattle.database_files.specs.Extents.{most_bytes as most_of_a_copy};
ghost use Rattle.changing_commands.specs.Serving.{longest_exchange};
ghost use Rattle.clap.specs.Words.{Row, one_of};
ghost use Rattle.command_line.specs.Meaning.{Gives, HasEvidenceValues, IsLineGiven, IsNumberIn};
ghost use Rattle.command_line.specs.declared.command.EvidenceWords.{EvidenceWords};
ghost use Rattle.reading_commands.specs.Reading.{FailsToRead};
ghost use Rattle.streams.specs.declared.unread.Unread.TheVariants.{TooManyReads};
ghost use Rattle.desk_lines.specs.declared.serve.TheConstants.{MAX_READS as reads_of_a_desk};
ghost use Rattle.desk_http.specs.declared.serve.TheConstants.{MAX_READS as reads_of_an_exchange};
ghost use Rattle.streams.specs.declared.lines.TheConstants.{MAX_LINE as longest_line};
ghost use Rattle.example_tests.specs.Limits.{gives_times, with_architectures, with_arguments};
ghost use Rattle.example_tests.specs.Limits.{with_entries, with_flags, with_names};

/// Bytes of a document, a line, a head, a body, a journal's line, and a file that is verified; calls
/// of read; revisions, and those that are told at once; and nanoseconds of an exchange.
pub fn examples_of_limits()
    ensures document { most_of_a_document ≡ 262144 }
    ensures line { max_line ≡ 300000 }
    ensures line_of_a_stream { longest_line ≡ 300000 }
    ensures head { most_head ≡ 8192 }
    ensures body { most_body ≡ 262144 }
    ensures line_of_a_journal { longest ≡ 2097152 }
    ensures copy { most_of_a_copy ≡ 4294967296 }
    ensures desk { reads_of_a_desk ≡ 4194304 }
    ensures exchange { reads_of_an_exchange ≡ 600000 }
    ensures revisions { max_revisions ≡ 9999 }
    ensures revisions_told { max_listed ≡ 100 }
    ensures seconds { longest_exchange ≡ 10000000000 }
{}

/// Words, tokens and names are of a form at their longest, and not with a byte more.
pub fn examples_of_longest_words()
    ensures word { is_word (replicate 64 97) ≡ true }
    ensures long_word { is_word (replicate 65 97) ≡ false }
    ensures empty_word { is_word [] ≡ false }
    ensures token { is_token (replicate 128 33) ≡ true }
    ensures long_token { is_token (replicate 129 33) ≡ false }
    ensures empty_token { is_token [] ≡ false }
    ensures call { is_call_name (replicate 64 97) ≡ true }
    ensures long_call { is_call_name (replicate 65 97) ≡ false }
    ensures empty_call { is_call_name [] ≡ false }
    ensures architecture { is_arch (codes "SCMP_ARCH_" ++ replicate 32 65) ≡ true }
    ensures long_architecture { is_arch (codes "SCMP_ARCH_" ++ replicate 33 65) ≡ false }
    ensures flag { is_flag (codes "SECCOMP_FILTER_FLAG_" ++ replicate 32 65) ≡ true }
    ensures long_flag { is_flag (codes "SECCOMP_FILTER_FLAG_" ++ replicate 33 65) ≡ false }
{}

/// The number of a revision is from 1 to 9,999, in a line and over HTTP.
pub fn examples_of_greatest_numbers()
    ensures last { if_revision 9999 ≡ Some 9999 }
    ensures behind_it { if_revision 10000 ≡ None }
    ensures none { if_revision 0 ≡ None }
    ensures last_written { revision_number_of (codes "9999") ≡ Some 9999 }
    ensures behind_it_written { revision_number_of (codes "10000") ≡ None }
    ensures none_written { revision_number_of (codes "0") ≡ None }
{}

/// A filter has as many entries, architectures and flags, an entry as many names and arguments, and a
/// head as many fields, and not one more.
pub fn examples_of_most_parts()
    ensures entries { has_too_many (with_entries 2048) ≡ false }
    ensures more_entries { has_too_many (with_entries 2049) ≡ true }
    ensures architectures { has_too_many (with_architectures 64) ≡ false }
    ensures more_architectures { has_too_many (with_architectures 65) ≡ true }
    ensures flags { has_too_many (with_flags 64) ≡ false }
    ensures more_flags { has_too_many (with_flags 65) ≡ true }
    ensures names { is_large (with_names 1024) ≡ false }
    ensures more_names { is_large (with_names 1025) ≡ true }
    ensures arguments { is_large (with_arguments 6) ≡ false }
    ensures more_arguments { is_large (with_arguments 7) ≡ true }
    ensures fields { (bytes : List ℕ) (h : RequestHead) → ReadsRequest bytes h []
        → length h.fields ≡ 64 → IsHeadOf bytes h }
    ensures more_fields { (bytes : List ℕ) (h : RequestHead) → length h.fields ≡ 65
        → IsHeadOf bytes h → ⊥ }
{}

/// The revision of `evidence` is from 1 to 9,999 too.
pub fn examples_of_numbers_of_evidence()
    ensures in_limits { (rows : List Row) (words : EvidenceWords)
        → Gives rows (codes "journal") words.journal.now
        → Gives rows (codes "team") words.team.now
        → Gives rows (codes "profile") words.profile.now → IsLineGiven rows words.line
        → IsNumberIn 1 9999 words.revision (one_of (codes "revision") rows)
        → HasEvidenceValues rows words }
    ensures behind_them { (rows : List Row) (words : EvidenceWords) → words.revision ≡ 10000
        → HasEvidenceValues rows words → ⊥ }
    ensures none { (rows : List Row) (words : EvidenceWords) → words.revision ≡ 0
        → HasEvidenceValues rows words → ⊥ }
{}

/// A file is read by 600,000 calls at most: one that gives as often is too long, and one that never
/// gives so often isn't.
pub fn examples_of_calls_for_a_file()
    ensures as_often { FailsToRead (gives_times 600000) TooManyReads }
    ensures less_often { FailsToRead (gives_times 599999) TooManyReads → ⊥ }
{}
