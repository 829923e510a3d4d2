//! What holds of all requests, entries and lines, proved as the contracts of functions that do nothing.
ghost use Rattle.std.specs.Prelude.{◌≡◌, ◌+◌, ◌≤◌, ◌++◌, true, codes, ℕ, List, length, Ok, Err, IfOk, IsOk};
ghost use Rattle.reg_entry.specs.declared.request.Request.{Request};
ghost use Rattle.desk_lang.specs.declared.line.Line.TheVariants as lines;
ghost use Rattle.desk_text.specs.RequestText.{request_text};
ghost use Rattle.reg_entry.specs.Entry.{PlainEntry};
ghost use Rattle.desk_lang.specs.EntryReading.{SpellsEntry};
ghost use Rattle.desk_lang.specs.Writable.{IsWritable};
ghost use Rattle.desk_lang.specs.declared.rest.Malformed.{Malformed};
ghost use Rattle.desk_lang.specs.Grammar.{line_of, IsValidLine};
ghost use Rattle.desk_lang.specs.Places.{BeginAlike, IsWordText};
ghost use Rattle.desk_lang.specs.Words.{ends_word, malformed_at};

/// The text that is written of a request is a line of the desk language, and is read as that request.
#[tactic(auto, using(crate::proofs::ReadLines::written_reads, crate::proofs::ReadLines::length_request))]
pub fn reads_written()
    ensures request { (r : Request) → IsWritable r → line_of (request_text r) ≡ Ok (lines.Request r) }
    ensures short { (r : Request) → IsWritable r → length (request_text r) ≤ 512 }
{}

/// The ranges and numbers that a line names are those of their spaces, and an amount has a size.
#[tactic(auto, using(crate::proofs::ValidLines::line_valid))]
pub fn lines_are_valid()
    ensures { (text : List ℕ) → IfOk (line_of text) IsValidLine }
{}

/// A text is the written text of at most one entry.
pub fn spells_one_entry()
    ensures { (text : List ℕ) (d e : PlainEntry) → SpellsEntry text d → SpellsEntry text e → d ≡ e }
{}

/// A line goes wrong at a word by that word and the bytes before it alone: whatever stands behind the word, the line goes
/// wrong there.
#[tactic(auto, using(crate::proofs::WrongLines::place_there, crate::proofs::WrongLines::place_alike, crate::proofs::WrongLines::place_of_word))]
pub fn wrong_whatever_follows()
    ensures place { (text : List ℕ) (fault : Malformed) → line_of text ≡ Err fault
        → (front : List ℕ) × (behind : List ℕ) × (text ≡ front ++ behind)
        × (fault ≡ malformed_at (length front + 1)) }
    ensures word { (front word behind other : List ℕ) → IsWordText word
        → ends_word behind ≡ true → ends_word other ≡ true
        → line_of (front ++ (word ++ behind)) ≡ Err (malformed_at (length front + 1))
        → length (front ++ (word ++ other)) ≤ 1024
        → line_of (front ++ (word ++ other)) ≡ Err (malformed_at (length front + 1)) }

    // A quote without its end is such a word too.
    ensures alike { (front text other : List ℕ)
        → line_of (front ++ text) ≡ Err (malformed_at (length front + 1))
        → BeginAlike text other → length (front ++ other) ≤ 1024
        → line_of (front ++ other) ≡ Err (malformed_at (length front + 1)) }
{}

/// What stands before the place where a line goes wrong begins a line of the desk language, where there is room for 17
/// bytes more. There has to be: behind `holder` no line has fewer.
#[tactic(auto, using(crate::proofs::WrongLines::place_completed, crate::proofs::NeededRoom::holder_room))]
pub fn begins_a_line()
    ensures enough { (front text : List ℕ)
        → line_of (front ++ text) ≡ Err (malformed_at (length front + 1))
        → length front + 17 ≤ 1024
        → (more : List ℕ) × (length more ≤ 17) × IsOk (line_of (front ++ more)) }
    ensures needed { (more : List ℕ) → IsOk (line_of (codes "holder" ++ more)) → 17 ≤ length more }
{}
