//! Theorems about the exit status and the effects of commands.

ghost use Rattle.std.specs.Prelude.{◌≡◌, ◌⊎◌, ℕ, Bool, List, None, Result, Err, Ok, true, length};
ghost use Rattle.std.specs.List.{list_all};
ghost use Rattle.std.specs.Io.KnownBytes.{Appends};
ghost use Rattle.vp_base.specs.Counted.{HasFailed};
ghost use Rattle.vp_encode.specs.declared.report.EncodeReport.{EncodeReport};
ghost use Rattle.vp_encode.specs.declared.report.EncodeAllFault.{EncodeAllFault};
ghost use Rattle.vp_stream.specs.declared.form.Form.{Form};
ghost use Rattle.vp_stream.specs.declared.report.Report.{Report};
ghost use Rattle.vp_frames.specs.declared.report.RangeReport.{RangeReport};
ghost use Rattle.vp_stream.specs.declared.outcomes.Survey.{Survey};
ghost use Rattle.vp_stream.specs.declared.fault.DecodeFault.{DecodeFault};
ghost use Rattle.vp_stream.specs.declared.fault.DecodeFault.TheVariants.{Device, Memory};
ghost use Rattle.vp_commands.specs.Commands.{DecodesInto, EncodesInto, Encoding, IsFileDecoded, IsFileEncoded, IsUnbegun};
ghost use Rattle.vp_commands.specs.Commands.{IsUnopened};
ghost use Rattle.vp_args.specs.declared.file_limits.FileLimits.{FileLimits};
ghost use Rattle.vp_lines.specs.declared.styles.LineStyle.{LineStyle};
ghost use Rattle.vp_check.specs.declared.checked.Checked.{Checked};
ghost use Rattle.vp_lines.specs.CheckLines.{checks_text, is_well};
ghost use Rattle.vp_commands.specs.Commands.{ChecksFile, ChecksInput, PrintsChecks, PrintsSum, status_by_checks};
ghost use Rattle.vp_commands.specs.Commands.{DecodesRangeInto, IsFileRangeDecoded, PrintsSurvey, Side, SurveysFile};
ghost use Rattle.vp_commands.specs.Commands.{SurveysInput, status_by_fault};
ghost use Rattle.vp_lines.specs.Listing.{survey_text};
ghost use Rattle.vp_lines.specs.Sums.{PrintsSums};

/// `vp8 info` has status 0 only if the file has no fault and all its lines are printed.
#[tactic(auto, using(crate::proofs::CommandLemmas::listed))]
pub fn status_0_of_info_says_that_all_is_printed()
    ensures listed { (survey : Survey) (o p : Side) → PrintsSurvey (Ok survey) 0 o p
        → (survey.fault ≡ None) × Appends o.bytes p.bytes (survey_text survey) }
    ensures unlisted { (fault : DecodeFault) (status : ℕ) (o p : Side)
        → PrintsSurvey (Err fault) status o p → (status ≡ 1) × (p ≡ o) }
{}

/// `vp8 check` has status 0 only if nothing is wrong with any file, and all its lines are printed.
#[tactic(auto, using(crate::proofs::CheckLemmas::nothing_wrong))]
pub fn status_0_of_check_says_that_nothing_is_wrong()
    ensures { (style : LineStyle) (names : List (List ℕ)) (dones : List (Result Checked DecodeFault))
        (o p : Side) → PrintsChecks style names dones 0 o p
        → (length dones ≡ length names) × (list_all (is_well style) dones ≡ true)
        × Appends o.bytes p.bytes (checks_text style names dones) }
{}

/// `vp8 info`, `check` and `decode --md5` print all their lines, whatever the status is, unless a call of the output is
/// counted as failed.
#[tactic(auto, using(crate::proofs::CommandLemmas::printed_survey, crate::proofs::CommandLemmas::printed_checks, crate::proofs::CommandLemmas::printed_sums))]
pub fn lines_are_printed_unless_the_output_failed()
    ensures listed { (survey : Survey) (status : ℕ) (o p : Side) → ¬ (HasFailed o.failures p.failures)
        → PrintsSurvey (Ok survey) status o p
        → (status ≡ status_by_fault survey.fault) × Appends o.bytes p.bytes (survey_text survey) }
    ensures checked { (style : LineStyle) (names : List (List ℕ)) (dones : List (Result Checked DecodeFault))
        (status : ℕ) (o p : Side) → ¬ (HasFailed o.failures p.failures) → PrintsChecks style names dones status o p
        → (length dones ≡ length names) × (status ≡ status_by_checks style dones)
        × Appends o.bytes p.bytes (checks_text style names dones) }
    ensures summed { (each : Bool) (report : Report) (name : List ℕ) (good status : ℕ) (o p : Side)
        → ¬ (HasFailed o.failures p.failures) → PrintsSum each (Ok report) name good status o p
        → (status ≡ good) × PrintsSums each name o.bytes p.bytes }
{}

/// Work over what cannot be opened ends by a fault, and work that is not begun leaves the streams.
#[tactic(auto, using(crate::proofs::CommandLemmas::never_done))]
pub fn what_is_not_begun_changes_nothing()
    ensures unopened { (name : List ℕ) (report : Report) → ¬ (IsUnopened Device Memory name (Ok report)) }
    ensures unbegun { (status : ℕ) (i j o p : Side) → IsUnbegun status i j o p → (status ≡ 1) × (j ≡ i) × (p ≡ o) }
{}

/// Standard input stays, or else a file was decoded, encoded, surveyed or checked, as the file's answer says.
#[tactic(auto, using(crate::proofs::WorkLemmas::reads_by_working, crate::proofs::WorkLemmas::reads_by_looking))]
pub fn standard_input_is_left_or_answered()
    ensures decoded { (most : FileLimits) (form : Form) (to : List ℕ) (done : Result Report DecodeFault) (i j o p : Side)
        → DecodesInto most form to done i j o p → (j ≡ i) ⊎ ((a : Side) × (b : Side) × IsFileDecoded most form done i j a b) }
    ensures range { (most : FileLimits) (form : Form) (first last : ℕ) (to : List ℕ) (done : Result RangeReport DecodeFault)
        (i j o p : Side) → DecodesRangeInto most form first last to done i j o p
        → (j ≡ i) ⊎ ((a : Side) × (b : Side) × IsFileRangeDecoded most form first last done i j a b) }
    ensures encoded { (settings : Encoding) (to : List ℕ) (done : Result EncodeReport EncodeAllFault) (i j o p : Side)
        → EncodesInto settings to done i j o p
        → (j ≡ i) ⊎ ((a : Side) × (b : Side) × IsFileEncoded settings done i j a b) }
    ensures surveyed { (most : FileLimits) (from : List ℕ) (done : Result Survey DecodeFault) (i j : Side) → SurveysFile most from done i j
        → (j ≡ i) ⊎ ((a : Side) × (b : Side) × SurveysInput most done a b) }
    ensures checked { (most : FileLimits) (from : List ℕ) (done : Result Checked DecodeFault) (i j : Side) → ChecksFile most from done i j
        → (j ≡ i) ⊎ ((a : Side) × (b : Side) × ChecksInput most done a b) }
{}
