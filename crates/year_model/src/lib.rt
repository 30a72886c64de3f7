// The tariff year as plain tables, and the model of what its calls mean (specs/).
#![tactic(auto)]

mod laws;
mod tables;

pub use laws::{
    books_balance, calls_keep_terms_in_the_year, calls_keep_the_year_sound, categories_are_known,
    costs_are_accounted_for, drafts_are_spent_once, refusals_change_nothing,
};
pub use tables::{Cents, Contract, Coupling, Started, System, Tables};
