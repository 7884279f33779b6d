//! Defines bracket trees and what they show, with their laws: a tree shows the brackets of its text, and a tree that
//! fits at a place may replace the tokens there. Definitions and laws only; `bracket_nodes` implements the trees.
#![tactic(auto)]
