//! What a conversion means: the entries of a key, paths and their order, certificates, the values of a span, segments,
//! rules, answers and suggestions. No code: specs/ has the definitions, and each function here is a law of them, which its
//! clause states. Start at [`one_is_best`].
#![tactic(auto)]

mod all_paths;
mod answers;
mod best;
mod bounds;
mod candidates;
mod certificates;
mod entries;
mod examples;
mod in_order;
mod lattices;
mod order;
mod rules;
mod segments;
mod suggestions;

pub use all_paths::{all_paths_are_listed, all_paths_are_once, listed_are_all_paths};
pub use answers::{
    first_answer_is_first, first_answer_is_one, least_costs_are_least, least_costs_are_one,
};
pub use best::{best_gives_least_cost, best_goes_on, best_is_one, nothing_is_best, one_is_best};
pub use bounds::{entries_are_few, least_costs_are_small, path_costs_are_small};
pub use candidates::{
    MOST_PATHS, MOST_VALUES, limits_are, value_costs_rise, values_are_few, values_are_once,
};
pub use certificates::{
    certificates_have_no_fault, fault_is_one, least_costs_certify, none_costs_less,
};
pub use entries::{entries_are_well_formed, keys_have_lattices};
pub use examples::{
    digits, digits_answer, kyo_suggestions, kyouha, kyouha_answer, kyouha_chosen, kyouha_cut,
    kyouha_cut_answer, kyouha_cut_lists, kyouha_cut_segments, kyouha_faults, kyouha_values, mo,
    mo_in_order, spelled_numbers,
};
pub use in_order::{
    best_is_first, first_is_best, in_order_are_once, in_order_are_paths, in_order_is_one,
    in_order_rises, paths_are_in_order,
};
pub use lattices::{cursors_are_first, ends_are_found, sources_come_first, whole_has_all};
pub use order::{before_goes_on, one_is_before};
pub use rules::{KANJI_DIGITS, MOST_DIGITS, RULE_ORDER, digit_limit_is, rule_order_is};
pub use segments::{
    cut_keeps_bounds, cut_parts_are_all, cut_parts_are_paths, cut_parts_are_spans, cut_touches,
    segment_values_are_once, segments_are_some, segments_begin_with_the_path, segments_have_values,
    segments_keep_bounds, segments_touch,
};
pub use suggestions::{MOST_SUGGESTIONS, suggestion_limit_is};
