//! The normal form of an operation on two terms: forty rewriting rules in their order, and the laws that
//! hold of them. There is no code here that runs: each function has an empty body, and its clauses are laws
//! over the definitions.
//!
//! `norm op a b` applies the first rule that fits, and again to each operation that the rule writes, the inner one
//! first, until none fits. The laws: each rule keeps the value of the operation under every input; each lowers the
//! weight of the term, or keeps it and does not fit again, so that rewriting ends; the result is the only one that
//! the rules allow; it is normal, where the operands are; and a normal term that reads no input is a constant.
#![tactic(auto)]

ghost use Rattle.std.specs.Prelude.{◌≡◌, ℕ, List};
ghost use Rattle.term_model.specs.declared.Op.{Op};
ghost use Rattle.term_model.specs.Tree.{Tree, Const};
ghost use Rattle.term_model.specs.Value.{op_value, val};
ghost use Rattle.term_model.specs.Places.{ReadsNothing};
ghost use Rattle.normal_form.specs.ArithmeticRules.{fold_constants, constant_to_the_right, reduce_shift_amount};
ghost use Rattle.normal_form.specs.ArithmeticRules.{drop_zero, subtract_by_adding, combine_added_constants};
ghost use Rattle.normal_form.specs.ArithmeticRules.{absorb_zero, drop_neutral_constant, remainder_by_one};
ghost use Rattle.normal_form.specs.ArithmeticRules.{or_with_all_ones, drop_repeated_operand, cancel_repeated_operand};
ghost use Rattle.normal_form.specs.ArithmeticRules.{equal_to_itself, combine_bitwise_constants, drop_mask};
ghost use Rattle.normal_form.specs.ArithmeticRules.{combine_shifts, shift_all_out};
ghost use Rattle.normal_form.specs.EqualityRules.{xor_across_equality, add_across_equality, difference_is_zero};
ghost use Rattle.normal_form.specs.EqualityRules.{truth_is_one, double_negation, truth_is_no_larger, zero_byte_differs};
ghost use Rattle.normal_form.specs.OrderRules.{less_than_zero, less_than_one, more_than_zero, one_byte_is_less};
ghost use Rattle.normal_form.specs.ByteRules.{byte_is_zero, byte_of_one_byte, byte_of_pair, byte_of_half};
ghost use Rattle.normal_form.specs.ByteRules.{byte_beside_zero, byte_under_mask, byte_of_left_shift};
ghost use Rattle.normal_form.specs.ByteRules.{byte_of_right_shift, pair_with_zero, half_with_zero, pair_of_own_bytes};
ghost use Rattle.normal_form.specs.ByteRules.{half_of_own_bytes};
ghost use Rattle.normal_form.specs.Rules.{first_rule};
ghost use Rattle.normal_form.specs.Norm.{norm};
ghost use Rattle.normal_form.specs.Normal.{IsNormal};
ghost use Rattle.term_model.specs.ByteNumber.{TakesByteNumber};
ghost use Rattle.normal_form.specs.Laws.{AreNormalOperands, KeepsValue, KeepsValueOfReducedShift, LowersWeight, Settles, FollowsTable};

/// Each rule for constants, arithmetic, bitwise operations and shifts keeps the value.
pub fn arithmetic_keeps_the_value()
    ensures fold_constants { KeepsValue fold_constants }
    ensures constant_to_the_right { KeepsValue constant_to_the_right }
    ensures reduce_shift_amount { KeepsValue reduce_shift_amount }
    ensures drop_zero { KeepsValue drop_zero }
    ensures subtract_by_adding { KeepsValue subtract_by_adding }
    ensures combine_added_constants { KeepsValue combine_added_constants }
    ensures absorb_zero { KeepsValue absorb_zero }
    ensures drop_neutral_constant { KeepsValue drop_neutral_constant }
    ensures remainder_by_one { KeepsValue remainder_by_one }
    ensures or_with_all_ones { KeepsValue or_with_all_ones }
    ensures drop_repeated_operand { KeepsValue drop_repeated_operand }
    ensures cancel_repeated_operand { KeepsValue cancel_repeated_operand }
    ensures equal_to_itself { KeepsValue equal_to_itself }
    ensures combine_bitwise_constants { KeepsValue combine_bitwise_constants }
    ensures drop_mask { KeepsValue drop_mask }
    ensures combine_shifts { KeepsValue combine_shifts }
    ensures shift_all_out { KeepsValueOfReducedShift shift_all_out }
{}

/// Each rule for equality and order keeps the value.
pub fn comparisons_keep_the_value()
    ensures xor_across_equality { KeepsValue xor_across_equality }
    ensures add_across_equality { KeepsValue add_across_equality }
    ensures difference_is_zero { KeepsValue difference_is_zero }
    ensures truth_is_one { KeepsValue truth_is_one }
    ensures double_negation { KeepsValue double_negation }
    ensures truth_is_no_larger { KeepsValue truth_is_no_larger }
    ensures zero_byte_differs { KeepsValue zero_byte_differs }
    ensures less_than_zero { KeepsValue less_than_zero }
    ensures less_than_one { KeepsValue less_than_one }
    ensures more_than_zero { KeepsValue more_than_zero }
    ensures one_byte_is_less { KeepsValue one_byte_is_less }
{}

/// Each rule for bytes keeps the value.
pub fn bytes_keep_the_value()
    ensures byte_is_zero { KeepsValue byte_is_zero }
    ensures byte_of_one_byte { KeepsValue byte_of_one_byte }
    ensures byte_of_pair { KeepsValue byte_of_pair }
    ensures byte_of_half { KeepsValue byte_of_half }
    ensures byte_beside_zero { KeepsValue byte_beside_zero }
    ensures byte_under_mask { KeepsValue byte_under_mask }
    ensures byte_of_left_shift { KeepsValue byte_of_left_shift }
    ensures byte_of_right_shift { KeepsValue byte_of_right_shift }
    ensures pair_with_zero { KeepsValue pair_with_zero }
    ensures half_with_zero { KeepsValue half_with_zero }
    ensures pair_of_own_bytes { KeepsValue pair_of_own_bytes }
    ensures half_of_own_bytes { KeepsValue half_of_own_bytes }
{}

/// The first rule that fits keeps the value.
pub fn first_rule_keeps_the_value()
    ensures { KeepsValue first_rule }
{}

/// Each rule lowers the weight, but two, which keep it and do not fit what they wrote.
pub fn rules_lower_the_weight()
    ensures fold_constants { LowersWeight fold_constants }
    ensures constant_to_the_right { Settles constant_to_the_right }
    ensures reduce_shift_amount { Settles reduce_shift_amount }
    ensures drop_zero { LowersWeight drop_zero }
    ensures subtract_by_adding { LowersWeight subtract_by_adding }
    ensures combine_added_constants { LowersWeight combine_added_constants }
    ensures absorb_zero { LowersWeight absorb_zero }
    ensures drop_neutral_constant { LowersWeight drop_neutral_constant }
    ensures remainder_by_one { LowersWeight remainder_by_one }
    ensures or_with_all_ones { LowersWeight or_with_all_ones }
    ensures drop_repeated_operand { LowersWeight drop_repeated_operand }
    ensures cancel_repeated_operand { LowersWeight cancel_repeated_operand }
    ensures equal_to_itself { LowersWeight equal_to_itself }
    ensures combine_bitwise_constants { LowersWeight combine_bitwise_constants }
    ensures drop_mask { LowersWeight drop_mask }
    ensures combine_shifts { LowersWeight combine_shifts }
    ensures shift_all_out { LowersWeight shift_all_out }
    ensures xor_across_equality { LowersWeight xor_across_equality }
    ensures add_across_equality { LowersWeight add_across_equality }
    ensures difference_is_zero { LowersWeight difference_is_zero }
    ensures truth_is_one { LowersWeight truth_is_one }
    ensures double_negation { LowersWeight double_negation }
    ensures truth_is_no_larger { LowersWeight truth_is_no_larger }
    ensures zero_byte_differs { LowersWeight zero_byte_differs }
    ensures less_than_zero { LowersWeight less_than_zero }
    ensures less_than_one { LowersWeight less_than_one }
    ensures more_than_zero { LowersWeight more_than_zero }
    ensures one_byte_is_less { LowersWeight one_byte_is_less }
    ensures byte_is_zero { LowersWeight byte_is_zero }
    ensures byte_of_one_byte { LowersWeight byte_of_one_byte }
    ensures byte_of_pair { LowersWeight byte_of_pair }
    ensures byte_of_half { LowersWeight byte_of_half }
    ensures byte_beside_zero { LowersWeight byte_beside_zero }
    ensures byte_under_mask { LowersWeight byte_under_mask }
    ensures byte_of_left_shift { LowersWeight byte_of_left_shift }
    ensures byte_of_right_shift { LowersWeight byte_of_right_shift }
    ensures pair_with_zero { LowersWeight pair_with_zero }
    ensures half_with_zero { LowersWeight half_with_zero }
    ensures pair_of_own_bytes { LowersWeight pair_of_own_bytes }
    ensures half_of_own_bytes { LowersWeight half_of_own_bytes }
{}

/// The normal form is what the first rule that fits writes, with normal forms for the operations in it, and the
/// operation itself where none fits. Nothing else is so.
pub fn normal_form_follows_the_table()
    ensures follows { FollowsTable norm }
    ensures only { (made : Op → Tree → Tree → Tree) → FollowsTable made → (op : Op) (a b : Tree) →
        made op a b ≡ norm op a b }
{}

/// The normal form of normal operands is normal.
pub fn normal_form_is_normal()
    ensures { (op : Op) (a b : Tree) → IsNormal a → IsNormal b → TakesByteNumber op b → IsNormal (norm op a b) }
{}

/// The normal form of normal operands has the value of the operation.
pub fn normal_form_keeps_the_value()
    ensures { (op : Op) (a b : Tree) (input : List ℕ) → AreNormalOperands op a b input →
        val (norm op a b) input ≡ op_value op (val a input) (val b input) }
{}

/// A normal term that reads no input is a constant.
pub fn closed_terms_are_constants()
    ensures { (t : Tree) → IsNormal t → ReadsNothing t → (c : ℕ) × (t ≡ Const c) }
{}
