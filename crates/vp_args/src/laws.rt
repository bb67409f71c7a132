//! Theorems about the command line.

ghost use Rattle.std.specs.Prelude.{◌≡◌, [], ◌∷◌, List, None, Some, codes};
ghost use Rattle.clap.specs.Walk.{Row, Text, first_of, one_of};
ghost use Rattle.vp_args.specs.Args.{parsed_args, checks, decodes, decodes_range, faults_of, pictures, tells};
ghost use Rattle.vp_args.specs.Args.{IsOperand};

/// `vp8 decode IN OUT` and `vp8 decode --y4m IN OUT` ask for exactly that.
pub fn decode_words()
    ensures plain { (name input output : Text) → IsOperand input → IsOperand output
        → (faults_of (name ∷ codes "decode" ∷ input ∷ output ∷ []) ≡ [])
        × ((rows : List Row)
        × (parsed_args (name ∷ codes "decode" ∷ input ∷ output ∷ []) ≡ decodes rows input output)
        × (one_of (codes "y4m") rows ≡ Some (codes "false")) × (one_of (codes "md5") rows ≡ Some (codes "false"))
        × (first_of (codes "max-packets") rows ≡ None) × (first_of (codes "max-pixels") rows ≡ None)) }
    ensures y4m { (name input output : Text) → IsOperand input → IsOperand output
        → (faults_of (name ∷ codes "decode" ∷ codes "--y4m" ∷ input ∷ output ∷ []) ≡ [])
        × ((rows : List Row)
        × (parsed_args (name ∷ codes "decode" ∷ codes "--y4m" ∷ input ∷ output ∷ []) ≡ decodes rows input output)
        × (one_of (codes "y4m") rows ≡ Some (codes "true")) × (one_of (codes "md5") rows ≡ Some (codes "false"))
        × (first_of (codes "max-packets") rows ≡ None) × (first_of (codes "max-pixels") rows ≡ None)) }
{}

/// `vp8 decode --frame N IN OUT` asks for the picture of packet N alone.
pub fn frame_words()
    ensures { (name number input output : Text) → IsOperand number → IsOperand input → IsOperand output
        → (faults_of (name ∷ codes "decode" ∷ codes "--frame" ∷ number ∷ input ∷ output ∷ []) ≡ [])
        × ((rows : List Row)
        × (parsed_args (name ∷ codes "decode" ∷ codes "--frame" ∷ number ∷ input ∷ output ∷ [])
        ≡ decodes_range rows input output) × (first_of (codes "frame") rows ≡ Some number)
        × (first_of (codes "frames") rows ≡ None) × (one_of (codes "y4m") rows ≡ Some (codes "false"))) }
{}

/// `vp8 picture IN OUT` asks for the first picture that is shown, in its size.
pub fn picture_words()
    ensures { (name input output : Text) → IsOperand input → IsOperand output
        → (faults_of (name ∷ codes "picture" ∷ input ∷ output ∷ []) ≡ [])
        × ((rows : List Row)
        × (parsed_args (name ∷ codes "picture" ∷ input ∷ output ∷ []) ≡ pictures rows input output)
        × (first_of (codes "packet") rows ≡ None) × (first_of (codes "scale") rows ≡ None)
        × (first_of (codes "qi") rows ≡ None)
        × (first_of (codes "max-packets") rows ≡ None) × (first_of (codes "max-pixels") rows ≡ None)) }
{}

/// `vp8 check A B` and `vp8 check --verbose A` ask to check these files.
pub fn check_words()
    ensures files { (name first second : Text) → IsOperand first → IsOperand second
        → (faults_of (name ∷ codes "check" ∷ first ∷ second ∷ []) ≡ [])
        × ((rows : List Row)
        × (parsed_args (name ∷ codes "check" ∷ first ∷ second ∷ []) ≡ checks rows (first ∷ second ∷ []))
        × (one_of (codes "verbose") rows ≡ Some (codes "false"))) }
    ensures verbose { (name input : Text) → IsOperand input
        → (faults_of (name ∷ codes "check" ∷ codes "--verbose" ∷ input ∷ []) ≡ [])
        × ((rows : List Row)
        × (parsed_args (name ∷ codes "check" ∷ codes "--verbose" ∷ input ∷ []) ≡ checks rows (input ∷ []))
        × (one_of (codes "verbose") rows ≡ Some (codes "true"))) }
{}

/// `vp8 info IN` asks for exactly that.
pub fn info_words()
    ensures { (name input : Text) → IsOperand input
        → (faults_of (name ∷ codes "info" ∷ input ∷ []) ≡ [])
        × ((rows : List Row)
        × (parsed_args (name ∷ codes "info" ∷ input ∷ []) ≡ tells rows (input ∷ []))
        × (one_of (codes "long") rows ≡ Some (codes "false")) × (one_of (codes "json") rows ≡ Some (codes "false"))
        × (first_of (codes "max-packets") rows ≡ None) × (first_of (codes "max-pixels") rows ≡ None)) }
{}
