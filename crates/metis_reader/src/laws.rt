//! Laws of the definitions of a file. Each function does nothing, and its contract is a law.

ghost use Rattle.std.specs.Prelude.{◌≡◌, ◌++◌, ℕ, suc, List, length, Some, Err};
ghost use Rattle.std.specs.List.{filter};
ghost use Rattle.metis_reader.specs.declared.fault.Fault.{Fault};
ghost use Rattle.metis_reader.specs.Text.{lines};
ghost use Rattle.metis_reader.specs.File.{file_findings, from_header, is_kept, fixed, graph_of};
ghost use Rattle.metis_reader.specs.Fed.{LawOfReader};
ghost use Rattle.metis_reader.specs.FirstForm.{LawOfFirstForm};
ghost use Rattle.metis_reader.specs.Reading.{input_findings, start};

/// Reading byte by byte finds the faults of the lines and words of the text, in their order.
pub fn a_reading_finds_the_faults()
    ensures { (bytes : List ℕ) → input_findings start bytes ≡ file_findings (suc (length bytes)) (length (lines bytes)) (from_header (filter is_kept (lines bytes))) }
{}

/// A fault that some bytes fix stays fixed, whatever bytes follow.
pub fn a_fixed_fault_stays()
    ensures { (bytes more : List ℕ) (fault : Fault) → fixed bytes ≡ Some fault → fixed (bytes ++ more) ≡ Some fault }
{}

/// A fault that some bytes fix is the first one of every input that begins with them.
pub fn a_fixed_fault_is_the_first()
    ensures { (bytes more : List ℕ) (fault : Fault) → fixed bytes ≡ Some fault → graph_of (bytes ++ more) ≡ Err fault }
{}

/// A reader that has refused nothing stands for bytes that fix no fault, and takes what is left of
/// 2^33 bytes.
pub fn a_reader_is_still_fed()
    ensures { LawOfReader }
{}

/// A text of the first form is accepted, and its graph is that of its rows. Such a text has no
/// weights, and numbers with one space between two.
pub fn a_first_form_is_accepted()
    ensures { LawOfFirstForm }
{}
