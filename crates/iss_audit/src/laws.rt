//! Theorems about exported logs, each as a call without a body.
ghost use Rattle.std.specs.Prelude.{◌≡◌, ℕ, List, []};
ghost use Rattle.iss_audit.specs.Exports.{EachEpoch, IsCertifiedText, IsExport, IsSignedByQuorum, keys_of};
ghost use Rattle.iss_audit.specs.Refusals.{IsBadEpoch, IsBadText};
ghost use Rattle.iss_schedule.specs.declared.errors.LineFault.{LineFault};
ghost use Rattle.iss_audit.specs.declared.errors.EpochFault.{EpochFault};
ghost use Rattle.iss_audit.specs.declared.exports.Export.{Export};

/// In a certified log, a quorum of different nodes signed each epoch's number, and the chain digest and number of
/// requests of the log at its end. One of these nodes is correct.
pub fn quorums_signed_each_epoch()
    ensures { (bytes : List ℕ) (x : Export) → IsCertifiedText bytes x
        → EachEpoch (IsSignedByQuorum x.setup (keys_of x.setup)) [] x.epochs }
{}

/// A text is that of at most one export. A text with a bad line is that of none, and one with a bad epoch is not that
/// of a certified log. So a text is refused exactly if it is not certified, unless memory runs out.
pub fn texts_and_exports()
    ensures one_export { (bytes : List ℕ) (x y : Export) → IsExport bytes x → IsExport bytes y → x ≡ y }
    ensures no_export { (bytes : List ℕ) (line : ℕ) (why : LineFault) (x : Export) → IsBadText bytes line why →
        ¬ IsExport bytes x }
    ensures no_log { (bytes : List ℕ) (x : Export) (e : ℕ) (why : EpochFault) → IsCertifiedText bytes x →
        ¬ IsBadEpoch bytes e why }
{}
