// What holds of conditions and ops, for all words: each law is a clause of a function without parameters.

ghost use Rattle.arm64_ops.specs.ConditionLaws.{InverseIsAnInvolution, InverseHoldsElsewhere, ConditionsCompare};
ghost use Rattle.arm64_ops.specs.ConditionLaws.{ConditionsCompareAfterCMP, ConditionsCompareAfterCMPW};
ghost use Rattle.arm64_ops.specs.OpLaws.{WordFormsAgree, RemaindersAreLeft, UnsignedRemaindersAreLeft};
ghost use Rattle.arm64_ops.specs.OpLaws.{MachineRemaindersAreLeft};

/// The inverse of a condition's inverse is the condition.
pub fn inverse_is_an_involution()
    ensures { InverseIsAnInvolution }
{}

/// A condition's inverse holds exactly where the condition doesn't, of all flags.
pub fn inverse_holds_elsewhere()
    ensures { InverseHoldsElsewhere }
{}

/// After the flags of a - b each of the ten conditions is the comparison of a and b that it names, signed or unsigned,
/// at every width of 1 to 64 bits.
pub fn conditions_compare()
    ensures { ConditionsCompare }
{}

/// So it is after `CMP`, at 64 bits, and after `CMPW`, at 32.
pub fn conditions_compare_after_cmp()
    ensures at_64 { ConditionsCompareAfterCMP }
    ensures at_32 { ConditionsCompareAfterCMPW }
{}

/// `MULW`, `DIVW`, `UDIVW`, `MODW`, `UMODW`, `MOVWreg` and `MOVWUreg` answer what the generic ops of 32 bits do,
/// whatever the upper halves of the operands are.
pub fn word_forms_agree()
    ensures { WordFormsAgree }
{}

/// A remainder is x - (x / y) y, signed and unsigned, at every width, of generic ops and the machine's.
pub fn remainders_are_left()
    ensures signed { RemaindersAreLeft }
    ensures unsigned { UnsignedRemaindersAreLeft }
    ensures machine { MachineRemaindersAreLeft }
{}
