// Document 01's cases that are to be proved, in one table: specs/Table.antt. This crate has theorems alone.
#![tactic(auto)]
