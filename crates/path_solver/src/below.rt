//! The laws of the crates below, together.

ghost use Rattle.path_solver.specs.Laws.{Facts};

use path_formula::case_laws::{
    a_member_of_a_formula_that_has_its_truth_has_its_own, a_set_has_the_ranges_of_its_test,
    an_inside_formula_has_cases, one_case_is_met_exactly_where_the_formula_has_the_truth,
    one_range_is_met_exactly_where_the_value_passes,
};
use path_formula::laws::{
    a_constant_formula_has_one_truth, a_simple_formula_has_a_known_symbol,
    a_simple_formula_may_stand_alone,
};

/// Says what these laws say. It does nothing.
pub(crate) fn facts()
    ensures { Facts }
{
    a_set_has_the_ranges_of_its_test();
    an_inside_formula_has_cases();
    one_case_is_met_exactly_where_the_formula_has_the_truth();
    one_range_is_met_exactly_where_the_value_passes();
    a_member_of_a_formula_that_has_its_truth_has_its_own();
    a_constant_formula_has_one_truth();
    a_simple_formula_has_a_known_symbol();
    a_simple_formula_may_stand_alone();
}
