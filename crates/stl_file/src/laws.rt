//! Laws of subtitle files and their normal forms.

ghost use Rattle.std.specs.Prelude.{◌≡◌, ◌↔◌, ℕ, List, Ok, take};
ghost use Rattle.stl_file.specs.File.{IsFile, IsFileFor};
ghost use Rattle.stl_file.specs.NormalForm.{gsi_with_counts, normal_form, subtitles_of};
ghost use Rattle.stl_file.specs.Reader.{findings_within_scope};
ghost use Rattle.stl_file.specs.Reading.{stopped};
ghost use Rattle.stl_file.specs.Subtitle.{SubtitleValue};
ghost use Rattle.stl_file.specs.KeptBlocks.{LawOfWholeDay, LawOfScope};
ghost use Rattle.stl_file.specs.declared.scope.Scope.{Scope};

/// Within a scope, bytes are a file with a certain GSI block and certain subtitles if and only if
/// they begin with this block, and reading them returns exactly these subtitles and no fault.
///
/// So the definition of a file determines whether a reader reports a fault, and if it reports none,
/// which subtitles it returns.
pub fn law_of_files()
    ensures { (scope : Scope)
        → (s g : List ℕ)
        → (ts : List SubtitleValue)
        → IsFileFor scope s g ts
        ↔ ((g ≡ take 1024 s) × (subtitles_of (stopped (findings_within_scope scope s)) ≡ Ok ts)) }
{}

/// If no fault ends the reading of a file within a scope, the results are, apart from block
/// numbers, those of reading, for the whole day, the file without the blocks of subtitles outside
/// the scope. No subtitle is outside the scope of the whole day.
pub fn law_of_scope()
    ensures part { LawOfScope }
    ensures day { LawOfWholeDay }
{}

/// The bytes of a file have only one reading: one GSI block and one list of subtitles.
pub fn law_of_one_reading()
    ensures { (s g h : List ℕ)
        → (ts us : List SubtitleValue)
        → IsFile s g ts
        → IsFile s h us
        → (g ≡ h) × (ts ≡ us) }
{}

/// The normal form of a file is a file with the same subtitles. Its GSI block differs from the GSI
/// block of the file only in TNB and TNS.
pub fn law_of_normal_form()
    ensures { (s g : List ℕ)
        → (ts : List SubtitleValue)
        → IsFile s g ts
        → IsFile (normal_form g ts) (gsi_with_counts g ts) ts }
{}

/// The normal form of a normal form is the normal form itself.
pub fn law_of_normal_form_again()
    ensures { (s g h : List ℕ)
        → (ts us : List SubtitleValue)
        → IsFile s g ts
        → IsFile (normal_form g ts) h us
        → normal_form h us ≡ normal_form g ts }
{}
