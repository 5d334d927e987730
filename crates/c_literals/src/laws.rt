// Laws of the constants of numbers. A call does nothing: its contract is what it is for.
ghost use Rattle.std.specs.Prelude.{◌≡◌, ℕ, List, Some, ◌==◌};
ghost use Rattle.std.specs.Str.Parse.{digits_value};
ghost use Rattle.type_data.specs.declared.basics.Basic.{Basic};
ghost use Rattle.c_literals.specs.declared.literal.Literal.{Literal};
ghost use Rattle.c_literals.specs.declared.suffixes.Suffix.{Suffix};
ghost use Rattle.c_literals.specs.Digits.{small};
ghost use Rattle.c_literals.specs.Floating.{floating_constant};
ghost use Rattle.c_literals.specs.Integer.{integer_constant, of_number};
ghost use Rattle.c_literals.specs.Productions.{IsIntegerConstant, IsFloatingConstant};

/// What is read as an integer constant is one by the productions of ISO C11 A.1.5, with the value of its digits, and each
/// that is one is read so.
pub fn integers_are_constants()
    ensures read { (base : ℕ) (digits : List ℕ) (suffix : Suffix) (text : List ℕ) → IsIntegerConstant base digits suffix text
        → integer_constant text ≡ Some (of_number (base == 10) suffix (small (digits_value base digits))) }
    ensures only { (text : List ℕ) (value : Literal) → integer_constant text ≡ Some value
        → (base : ℕ) × (digits : List ℕ) × (suffix : Suffix) × IsIntegerConstant base digits suffix text
        × (value ≡ of_number (base == 10) suffix (small (digits_value base digits))) }
{}

/// What is read as a floating constant is one by the productions of ISO C11 A.1.5, with the type of its suffix, and each that
/// is one is read so.
pub fn floatings_are_constants()
    ensures read { (ty : Basic) (text : List ℕ) → IsFloatingConstant ty text → floating_constant text ≡ Some ty }
    ensures only { (text : List ℕ) (ty : Basic) → floating_constant text ≡ Some ty → IsFloatingConstant ty text }
{}
