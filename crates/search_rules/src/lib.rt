//! Specifies search and replace: the occurrences of a text in another one, and the result of replacing them all. Contracts
//! cite these definitions and laws; `model_find` implements the search.
#![tactic(auto)]
